//! Grants of a program of two libraries, by hand.

ghost use Rattle.std.specs.Prelude.{◌≡◌, ◌≤◌, IfOk, length};
ghost use Rattle.fx_c_ast.specs.declared.checked.TProgram.{TProgram};
ghost use Rattle.fx_config.specs.declared.configuration.Config.{Config};

use crate::{GrantError, Place, merged, resolve};
use fx_c_ast::checked::{TFunction, TGlobal, TLocal, TProgram, Ty};
use fx_c_ast::operator::IntType;
use fx_c_ast::parsed::{Grant, Init};
use fx_c_ast::sequence::Sequence;
use fx_config::{
    Bytes, Compartment, Compartments, Config, FileNames, Libraries, Library, Mechanism, Name, Names,
};
use std::alloc::{AllocError, Global};

fn letter(alloc: Global, byte: u8) -> Result<Name, AllocError> {
    Ok(Name::new(vec![in alloc; byte; 1]?))
}

fn one_name(alloc: Global, byte: u8) -> Result<Names, AllocError> {
    let mut names = Vec::new(alloc);
    names.push(letter(alloc, byte)?)?;
    Ok(Names::new(names))
}

fn library(alloc: Global, byte: u8) -> Result<Library, AllocError> {
    Ok(Library {
        name: letter(alloc, byte)?,
        files: FileNames::new(Vec::new(alloc)),
    })
}

fn compartment(alloc: Global, byte: u8) -> Result<Compartment, AllocError> {
    Ok(Compartment {
        name: letter(alloc, byte)?,
        libraries: one_name(alloc, byte)?,
        calls: None,
        devices: Bytes::new(Vec::new(alloc)),
    })
}

// Libraries a and b; compartment a has a, and a second one, where it is wanted, has b.
fn configuration(alloc: Global, with_second: bool) -> Result<Config, AllocError>
    ensures libraries { IfOk result (λ (c : Config). length c.libraries ≡ 2) }
    ensures compartments { IfOk result (λ (c : Config). length c.compartments ≤ 2) }
{
    let mut libraries = Vec::new(alloc);
    libraries.push(library(alloc, b'a')?)?;
    libraries.push(library(alloc, b'b')?)?;
    let mut compartments = Vec::new(alloc);
    compartments.push(compartment(alloc, b'a')?)?;
    if with_second {
        compartments.push(compartment(alloc, b'b')?)?;
    }
    Ok(Config {
        mechanism: Mechanism::Full,
        stack_pages: 4,
        scheduler: 0,
        libraries: Libraries::new(libraries),
        compartments: Compartments::new(compartments),
    })
}

// In library a: `__read(b) long v;` and `void f(long x, __shared long y) { }`.
fn program(alloc: Global) -> Result<TProgram, AllocError>
    ensures { IfOk result (λ (p : TProgram). length p.functions ≡ 1) }
{
    let mut readers = Vec::new(alloc);
    readers.push(Sequence::from_vec(vec![in alloc; b'b'; 1]?))?;
    let mut globals = Vec::new(alloc);
    globals.push(TGlobal {
        library: 0,
        grant: Grant::Private,
        readers: Grant::Libraries(Sequence::from_vec(readers)),
        ty: Ty::Int(IntType::Long),
        name: Sequence::from_vec(vec![in alloc; b'v'; 1]?),
        init: Init::Zero,
    })?;
    let mut locals = Vec::new(alloc);
    locals.push(TLocal {
        shared: false,
        ty: Ty::Int(IntType::Long),
    })?;
    locals.push(TLocal {
        shared: true,
        ty: Ty::Int(IntType::Long),
    })?;
    let f = TFunction {
        library: 0,
        entry: false,
        result: Ty::Void,
        name: Sequence::from_vec(vec![in alloc; b'f'; 1]?),
        params: 2,
        locals: Sequence::from_vec(locals),
        body: Vec::new(alloc),
    };
    let mut functions = Vec::new(alloc);
    functions.push(f)?;
    Ok(TProgram {
        structs: Sequence::new(alloc),
        globals: Sequence::from_vec(globals),
        literals: Sequence::new(alloc),
        functions: Sequence::from_vec(functions),
        main: 0,
    })
}

fn local(local: u16) -> Place {
    Place::Local { function: 0, local }
}

#[test]
fn grants_of_two_compartments(rt: HostRuntime) -> Result<(), GrantError> {
    let p = program(rt.alloc())?;
    let c = configuration(rt.alloc(), true)?;
    let g = resolve(rt.alloc(), &p, &c)?;
    assert!(rt; g.home(0) == 0 && g.home(1) == 1);
    assert!(rt; g.may(0, Place::Global(0), true));
    assert!(rt; g.may(1, Place::Global(0), false));
    assert!(rt; !g.may(1, Place::Global(0), true));
    assert!(rt; g.may(1, Place::Literal(0), false));
    assert!(rt; !g.may(0, Place::Literal(0), true));
    assert!(rt; g.may(0, local(0), true) && !g.may(1, local(0), false));
    assert!(rt; g.may(1, local(1), true));
    Ok(())
}

#[test]
fn a_library_in_no_compartment(rt: HostRuntime) -> Result<(), GrantError> {
    let p = program(rt.alloc())?;
    let c = configuration(rt.alloc(), false)?;
    let refused = match resolve(rt.alloc(), &p, &c) {
        Err(GrantError::NoCompartment(library)) => library == 1,
        Err(_) | Ok(_) => false,
    };
    assert!(rt; refused);
    Ok(())
}

#[test]
fn merged_grants_deny_nothing(rt: HostRuntime) -> Result<(), AllocError> {
    let p = program(rt.alloc())?;
    let c = configuration(rt.alloc(), true)?;
    let g = merged(rt.alloc(), &p, &c)?;
    assert!(rt; g.home(1) == 0);
    assert!(rt; g.may(0, Place::Global(0), true) && g.may(0, local(0), true));
    Ok(())
}
