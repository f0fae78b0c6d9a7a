//! A frame and stacks counted by hand.

ghost use Rattle.std.specs.Prelude.{◌≡◌, IfOk, HoldsAt, length};
ghost use Rattle.fx_c_ast.specs.declared.checked.TFunction.{TFunction};
ghost use Rattle.fx_config.specs.declared.configuration.Config.{Config};
ghost use Rattle.fx_shadow.specs.Frames.{HasFrames};

use crate::{FrameSize, Range, SlotPlace, frame, slot, stack};
use fx_c_ast::checked::{TFunction, TLocal, TProgram, Ty};
use fx_c_ast::operator::IntType;
use fx_c_ast::sequence::Sequence;
use fx_config::{Bytes, Compartment, Compartments, Config, Libraries, Mechanism, Name, Names};
use std::alloc::{AllocError, Global};

// `void f(long a, __shared char b) { }` alone.
fn one_function(alloc: Global) -> Result<TProgram, AllocError>
    ensures frames { IfOk result HasFrames }
    ensures one { IfOk result (λ p. length p.functions ≡ 1) }
    ensures two { IfOk result (λ p. HoldsAt (λ (f : TFunction). length f.locals ≡ 2) p.functions 0) }
{
    let mut locals = Vec::new(alloc);
    locals.push(TLocal {
        shared: false,
        ty: Ty::Int(IntType::Long),
    })?;
    locals.push(TLocal {
        shared: true,
        ty: Ty::Int(IntType::Char),
    })?;
    let f = TFunction {
        library: 0,
        entry: false,
        result: Ty::Void,
        name: Sequence::new(alloc),
        params: 2,
        locals: Sequence::from_vec(locals),
        body: Vec::new(alloc),
    };
    let mut functions = Vec::new(alloc);
    functions.push(f)?;
    Ok(TProgram {
        structs: Sequence::new(alloc),
        globals: Sequence::new(alloc),
        literals: Sequence::new(alloc),
        functions: Sequence::from_vec(functions),
        main: 0,
    })
}

#[test]
fn frame_of_two_parameters(rt: HostRuntime) -> Result<(), AllocError> {
    let p = one_function(rt.alloc())?;
    let whole = FrameSize {
        size: 80,
        locals: 64,
        depth: 0,
    };
    assert!(rt; frame(&p, 0) == whole);
    let first = SlotPlace {
        below: 32,
        shared: false,
    };
    assert!(rt; slot(&p, 0, 0) == first);
    let second = SlotPlace {
        below: 64,
        shared: true,
    };
    assert!(rt; slot(&p, 0, 1) == second);
    Ok(())
}

fn compartment(alloc: Global) -> Compartment {
    Compartment {
        name: Name::new(Vec::new(alloc)),
        libraries: Names::new(Vec::new(alloc)),
        calls: None,
        devices: Bytes::new(Vec::new(alloc)),
    }
}

fn two_compartments(alloc: Global, mechanism: Mechanism) -> Result<Config, AllocError>
    ensures { IfOk result (λ (c : Config). length c.compartments ≡ 2) }
{
    let mut compartments = Vec::new(alloc);
    compartments.push(compartment(alloc))?;
    compartments.push(compartment(alloc))?;
    Ok(Config {
        mechanism,
        stack_pages: 4,
        scheduler: 0,
        libraries: Libraries::new(Vec::new(alloc)),
        compartments: Compartments::new(compartments),
    })
}

#[test]
fn stacks_of_the_second_thread(rt: HostRuntime) -> Result<(), AllocError> {
    let full = two_compartments(rt.alloc(), Mechanism::Full)?;
    let own = Range {
        low: 0x2001_f000,
        size: 16_384,
    };
    assert!(rt; stack(&full, 1, 1) == own);
    let light = two_compartments(rt.alloc(), Mechanism::Light)?;
    let common = Range {
        low: 0x2000_b000,
        size: 16_384,
    };
    assert!(rt; stack(&light, 1, 1) == common);
    Ok(())
}
