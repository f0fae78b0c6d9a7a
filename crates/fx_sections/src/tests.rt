//! The placement of a program of one literal, by hand.

ghost use Rattle.std.specs.Prelude.{◌≡◌, [], ◌∷◌, IfOk, length};
ghost use Rattle.fx_c_ast.specs.declared.checked.TProgram.{TProgram};
ghost use Rattle.fx_config.specs.declared.configuration.Config.{Config};
ghost use Rattle.fx_sections.specs.Placement.{literal_sizes};

use crate::{PlaceError, PlacedSection, place};
use fx_c_ast::checked::TProgram;
use fx_c_ast::sequence::Sequence;
use fx_config::{
    Bytes, Compartment, Compartments, Config, Libraries, Mechanism, Name, Names,
    Sequence as Records,
};
use fx_grants::Grants;
use std::alloc::{AllocError, Global};

fn one_literal(alloc: Global) -> Result<TProgram, AllocError>
    ensures structs { IfOk result (λ (p : TProgram). p.structs ≡ []) }
    ensures globals { IfOk result (λ (p : TProgram). p.globals ≡ []) }
    ensures literals { IfOk result (λ (p : TProgram). literal_sizes p ≡ 2 ∷ []) }
{
    let bytes = vec![in alloc; b'H'; 2]?;
    let mut literals = Vec::new(alloc);
    literals.push(Sequence::from_vec(bytes))?;
    Ok(TProgram {
        structs: Sequence::new(alloc),
        globals: Sequence::new(alloc),
        literals: Sequence::from_vec(literals),
        functions: Sequence::new(alloc),
        main: 0,
    })
}

fn one_compartment(alloc: Global) -> Result<Config, AllocError>
    ensures { IfOk result (λ (c : Config). length c.compartments ≡ 1) }
{
    let mut compartments = Vec::new(alloc);
    compartments.push(Compartment {
        name: Name::new(Vec::new(alloc)),
        libraries: Names::new(Vec::new(alloc)),
        calls: None,
        devices: Bytes::new(Vec::new(alloc)),
    })?;
    Ok(Config {
        mechanism: Mechanism::Light,
        stack_pages: 4,
        scheduler: 0,
        libraries: Libraries::new(Vec::new(alloc)),
        compartments: Compartments::new(compartments),
    })
}

fn no_globals(alloc: Global) -> Grants
    ensures { result.globals ≡ [] }
{
    Grants {
        mechanism: Mechanism::Light,
        stack_pages: 4,
        scheduler: 0,
        compartments: 1,
        homes: Bytes::new(Vec::new(alloc)),
        globals: Records::new(Vec::new(alloc)),
        functions: Records::new(Vec::new(alloc)),
    }
}

#[test]
fn one_section_and_one_literal(rt: HostRuntime) -> Result<(), PlaceError> {
    let p = one_literal(rt.alloc())?;
    let g = no_globals(rt.alloc());
    let c = one_compartment(rt.alloc())?;
    let at = place(rt.alloc(), &p, &g, &c)?;
    let section = PlacedSection {
        readers: 1,
        writers: 1,
        key: 2,
        page: 0x10000,
        pages: 1,
    };
    assert!(rt; at.sections.as_slice() == [section].as_slice());
    assert!(rt; at.globals.as_slice().is_empty());
    assert!(rt; at.literals.as_slice() == [0x60_0000].as_slice());
    Ok(())
}
