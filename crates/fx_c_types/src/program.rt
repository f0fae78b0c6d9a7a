//! The check of a program: all heads in program order, then all bodies, then `main`.

ghost use Rattle.std.specs.Prelude.{◌≡◌, ◌<◌, ◌^◌, [], ◌∷◌, ◌++◌, length, IfOk, OnOk, Ok, Some};
ghost use Rattle.fx_c_ast.specs.ParsedTrees.{param_trees, stmt_trees, decl_tree};
ghost use Rattle.fx_c_types_rules.specs.Checks.{Gives};
ghost use Rattle.fx_c_types_heads.specs.HeadsView.{heads_tree, function_head as head_tree};
ghost use Rattle.fx_c_types_bodies.specs.Views.{body_tree};
ghost use Rattle.fx_c_types.specs.Programs.{at_declaration, with_name, with_tag, tags_of, heads_of, param_block, body_from, function_of, finished, function_body, next_body, body_of, no_bodies, bodies_of, is_start, main_number, program_of, well_typed};
ghost use Rattle.fx_c_types.specs.Answers.{Answers};
ghost use Rattle.fx_c_types.specs.ProgramView.{declarations, placed_trees, function_tree, function_trees, bodies_tree, program_tree};
ghost use Rattle.fx_c_types_rules.specs.Locals.{local_trees};
ghost use Rattle.fx_c_ast.specs.CheckedTrees.{tstmt_trees};
ghost use Rattle.fx_c_types_heads.specs.Heads.{no_heads, head};

use crate::fault::TypeError;
use crate::frame::fits;
use fx_c_ast::checked::{TFunction, TLocal, TProgram, TStmt};
use fx_c_ast::parsed::{Bytes, Decl, Param, Stmt, Unit};
use fx_c_ast::sequence::Sequence;
use fx_c_types_bodies::nodes::place_16;
use fx_c_types_bodies::scope::{Body, Scope};
use fx_c_types_bodies::statements::statements;
use fx_c_types_heads::copies::bytes;
use fx_c_types_heads::declare::add;
use fx_c_types_heads::heads::{Head, Heads, place_32};
use fx_c_types_heads::names::Names;
use fx_c_types_rules::category::Category;
use fx_c_types_rules::fault::{Fault, TypeKind};
use fx_c_types_rules::types::{category, copied};
use std::alloc::{AllocError, Global};
use std::mem;

/// A source file with the number of its library.
#[derive(Debug, Drop)]
pub struct SourceFile {
    pub library: u8,
    pub unit: Unit,
}

/// A declaration of a program with the number of its library.
#[derive(Drop)]
struct Placed<'a> {
    library: u8,
    decl: &'a Decl,
}

/// What is there between two bodies: how many structs are declared so far, the strings, and the
/// functions.
#[derive(Drop)]
struct Bodies {
    declared: u32,
    literals: Vec<Bytes>,
    functions: Vec<TFunction>,
}

fn push_placed<'a>(all: &mut Vec<Placed<'a>>, library: u8, decl: &'a Decl) -> Result<(), AllocError>
    ensures { OnOk result (placed_trees all.new.items ≡ placed_trees all.old.items ++ record { library = library; decl = decl_tree decl.now } ∷ []) }
{
    all.push(Placed { library, decl })?;
    Ok(())
}

// The declarations of all files, in program order.
fn declarations(alloc: Global, files: &[SourceFile]) -> Result<Vec<Placed<'_>>, AllocError>
    ensures { IfOk result (λ v. placed_trees v.items ≡ declarations files.now) }
{
    let mut all = Vec::new(alloc);
    for file in files {
        let library = file.library;
        for decl in file.unit.decls.as_slice() {
            push_placed(&mut all, library, decl)?;
        }
    }
    Ok(all)
}

// A check of the declaration with a number.
fn at_declaration<T: Drop>(declaration: u32, r: Result<T, Fault>) -> Result<T, TypeError>
    ensures { result ≡ at_declaration declaration r }
{
    match r {
        Ok(value) => Ok(value),
        Err(Fault::Rule(kind)) => Err(TypeError::Rule { kind, declaration }),
        Err(Fault::OutOfMemory) => Err(TypeError::OutOfMemory),
    }
}

// The tag of a struct, if it is its first declaration.
fn add_tag(alloc: Global, tags: &mut Names, decl: &Decl) -> Result<(), AllocError>
    ensures { OnOk result (tags.new ≡ with_tag tags.old (decl_tree decl.now)) }
{
    if let Decl::Struct { name, members: _ } = decl {
        add_name(alloc, tags, name.as_slice())?;
    }
    Ok(())
}

// A name with the next number, if it isn't there.
fn add_name(alloc: Global, names: &mut Names, name: &[u8]) -> Result<(), AllocError>
    ensures { OnOk result (names.new ≡ with_name names.old name.now) }
{
    match names.find(name) {
        Some(_) => Ok(()),
        None => {
            let number = place_32(names.len());
            names.declare(alloc, name, number)
        }
    }
}

// The tags of all structs.
fn tags_of(alloc: Global, all: &[Placed<'_>]) -> Result<Names, AllocError>
    ensures { IfOk result (λ t. t ≡ tags_of [] (placed_trees all.now)) }
{
    let mut tags = Names::new(alloc);
    for placed in all {
        add_tag(alloc, &mut tags, placed.decl)?;
    }
    Ok(tags)
}

// The head of the declaration with a number.
fn add_at(
    alloc: Global,
    heads: &mut Heads,
    number: u32,
    library: u8,
    decl: &Decl,
) -> Result<(), TypeError>
    ensures { Answers (λ _. heads_tree heads.new) result (at_declaration number (head (heads_tree heads.old) library (decl_tree decl.now))) }
{
    at_declaration(number, add(alloc, heads, library, decl))
}

// The heads of all declarations.
fn heads_of(alloc: Global, tags: Names, all: &[Placed<'_>]) -> Result<Heads, TypeError>
    requires { length all.now < 2 ^ 32 }
    ensures { Answers heads_tree result (heads_of 0 (no_heads tags) (placed_trees all.now)) }
{
    let mut heads = Heads::new(alloc, tags);
    let mut number: u32 = 0;
    for placed in all {
        add_at(alloc, &mut heads, number, placed.library, placed.decl)?;
        number += 1;
    }
    Ok(heads)
}

// Copies of locals.
fn copied_locals(alloc: Global, locals: &[TLocal]) -> Result<Vec<TLocal>, Fault>
    ensures { Gives (λ v. local_trees v.items) result (Ok (local_trees locals.now)) }
{
    let mut all = Vec::new(alloc);
    for local in locals {
        let ty = copied(alloc, &local.ty)?;
        let shared = local.shared;
        all.push(TLocal { shared, ty })?;
    }
    Ok(all)
}

// The names of parameters, which are the first locals.
fn param_block(alloc: Global, params: &[Param]) -> Result<Names, AllocError>
    ensures { IfOk result (λ n. n ≡ param_block [] (param_trees params.now)) }
{
    let mut names = Names::new(alloc);
    for param in params {
        add_name(alloc, &mut names, param.name.as_slice())?;
    }
    Ok(names)
}

// What is in reach where a function's body begins.
fn body_from(
    alloc: Global,
    literals: Vec<Bytes>,
    head: &Head,
    params: &[Param],
) -> Result<Body, Fault>
    ensures { Gives body_tree result (Ok (body_from literals.items (head_tree head.now) (param_trees params.now))) }
{
    let locals = copied_locals(alloc, head.params.as_slice())?;
    let mut blocks = Vec::new(alloc);
    let names = param_block(alloc, params)?;
    blocks.push(names)?;
    Ok(Body {
        literals,
        locals,
        blocks,
    })
}

// A checked function.
fn function_of(
    alloc: Global,
    head: &Head,
    locals: Vec<TLocal>,
    body: Vec<TStmt>,
) -> Result<TFunction, Fault>
    ensures { Gives function_tree result (Ok (function_of (head_tree head.now) (local_trees locals.items) (tstmt_trees body.items))) }
{
    let result = copied(alloc, &head.result)?;
    let name = bytes(alloc, &head.name)?;
    Ok(TFunction {
        library: head.library,
        entry: head.entry,
        result,
        name,
        params: place_16(head.params.len()),
        locals: Sequence::from_vec(locals),
        body,
    })
}

fn push_function(functions: &mut Vec<TFunction>, f: TFunction) -> Result<(), Fault>
    ensures { Gives (λ _. function_trees functions.new.items) result (Ok (function_trees functions.old.items ++ function_tree f ∷ [])) }
{
    functions.push(f)?;
    Ok(())
}

// A body that is checked: its frame has to be short enough.
fn finish(
    alloc: Global,
    heads: &Heads,
    bodies: &mut Bodies,
    head: &Head,
    state: Body,
    body: Vec<TStmt>,
) -> Result<(), Fault>
    ensures { Gives (λ _. bodies_tree bodies.new) result (finished (heads_tree heads.now) (bodies_tree bodies.old) (head_tree head.now) (tstmt_trees body.items, body_tree state)) }
{
    let Body {
        literals,
        locals,
        blocks: _,
    } = state;
    if !fits(&heads.layouts, &locals, &body) {
        return Err(Fault::Rule(TypeKind::FrameTooLong));
    }
    bodies.literals = literals;
    let f = function_of(alloc, head, locals, body)?;
    push_function(&mut bodies.functions, f)
}

// The body of a function with its head.
fn function_body(
    alloc: Global,
    heads: &Heads,
    bodies: &mut Bodies,
    head: &Head,
    params: &[Param],
    body: &[Stmt],
) -> Result<(), Fault>
    ensures { Gives (λ _. bodies_tree bodies.new) result (function_body (heads_tree heads.now) (bodies_tree bodies.old) (Some (head_tree head.now)) (param_trees params.now) (stmt_trees body.now)) }
{
    let scope = Scope {
        heads,
        declared: bodies.declared,
        library: head.library,
        answer: &head.result,
    };
    let literals = mem::replace(&mut bodies.literals, Vec::new(alloc));
    let mut state = body_from(alloc, literals, head, params)?;
    let body = statements(alloc, &scope, false, &mut state, body)?;
    finish(alloc, heads, bodies, head, state, body)
}

// The body of the next function.
fn next_body(
    alloc: Global,
    heads: &Heads,
    bodies: &mut Bodies,
    params: &[Param],
    body: &[Stmt],
) -> Result<(), Fault>
    ensures { Gives (λ _. bodies_tree bodies.new) result (next_body (heads_tree heads.now) (bodies_tree bodies.old) (param_trees params.now) (stmt_trees body.now)) }
{
    let number = bodies.functions.len();
    if number >= heads.functions.len() {
        return Ok(());
    }
    function_body(alloc, heads, bodies, &heads.functions[number], params, body)
}

// The body of a declaration, if it has one.
fn body_of(alloc: Global, heads: &Heads, bodies: &mut Bodies, decl: &Decl) -> Result<(), Fault>
    ensures { Gives (λ _. bodies_tree bodies.new) result (body_of (heads_tree heads.now) (bodies_tree bodies.old) (decl_tree decl.now)) }
{
    match decl {
        Decl::Struct {
            name: _,
            members: _,
        } => {
            bodies.declared = bodies.declared.saturating_add(1);
            Ok(())
        }
        Decl::Global {
            grant: _,
            readers: _,
            ty: _,
            name: _,
            init: _,
        } => Ok(()),
        Decl::Function {
            entry: _,
            result: _,
            name: _,
            params,
            body,
        } => next_body(alloc, heads, bodies, params.as_slice(), body),
    }
}

// The body of the declaration with a number.
fn body_at(
    alloc: Global,
    heads: &Heads,
    bodies: &mut Bodies,
    number: u32,
    decl: &Decl,
) -> Result<(), TypeError>
    ensures { Answers (λ _. bodies_tree bodies.new) result (at_declaration number (body_of (heads_tree heads.now) (bodies_tree bodies.old) (decl_tree decl.now))) }
{
    at_declaration(number, body_of(alloc, heads, bodies, decl))
}

// The bodies of all functions.
fn bodies_of(alloc: Global, heads: &Heads, all: &[Placed<'_>]) -> Result<Bodies, TypeError>
    requires { length all.now < 2 ^ 32 }
    ensures { Answers bodies_tree result (bodies_of 0 (heads_tree heads.now) no_bodies (placed_trees all.now)) }
{
    let mut bodies = Bodies {
        declared: 0,
        literals: Vec::new(alloc),
        functions: Vec::new(alloc),
    };
    let mut number: u32 = 0;
    for placed in all {
        body_at(alloc, heads, &mut bodies, number, placed.decl)?;
        number += 1;
    }
    Ok(bodies)
}

// Whether a program may begin with a function.
fn is_start(head: &Head) -> bool
    ensures { result ≡ is_start (head_tree head.now) }
{
    if head.params.len() > 0 {
        return false;
    }
    match category(&head.result) {
        Category::Nothing | Category::Integer(_) => true,
        _ => false,
    }
}

// The number of the function that the program begins with.
fn main_number(heads: &Heads) -> Result<u32, Fault>
    ensures { Gives (λ n. n) result (main_number (heads_tree heads.now)) }
{
    let Some(number) = heads.function_names.find(b"main") else {
        return Err(Fault::Rule(TypeKind::NoMain));
    };
    if number as usize >= heads.functions.len() {
        return Err(Fault::Rule(TypeKind::NoMain));
    }
    if !is_start(&heads.functions[number as usize]) {
        return Err(Fault::Rule(TypeKind::NoMain));
    }
    Ok(number)
}

// The number of `main`, whose want is no declaration's.
fn main_at(heads: &Heads) -> Result<u32, TypeError>
    ensures { Answers (λ n. n) result (at_declaration 0 (main_number (heads_tree heads.now))) }
{
    at_declaration(0, main_number(heads))
}

// The checked program.
fn program_of(heads: Heads, bodies: Bodies, main: u32) -> TProgram
    ensures { program_tree result ≡ program_of (heads_tree heads) (bodies_tree bodies) main }
{
    let Heads {
        tags: _,
        global_names: _,
        function_names: _,
        structs,
        layouts: _,
        globals,
        functions: _,
    } = heads;
    let Bodies {
        declared: _,
        literals,
        functions,
    } = bodies;
    TProgram {
        structs: Sequence::from_vec(structs),
        globals: Sequence::from_vec(globals),
        literals: Sequence::from_vec(literals),
        functions: Sequence::from_vec(functions),
        main,
    }
}

/// Checks the files of a program, in order: gives the checked program, or the first rule that is
/// violated. The heads of all declarations are tried first, in program order, then the bodies of
/// functions, then that there is a `main`.
pub fn check(alloc: Global, files: &[SourceFile]) -> Result<TProgram, TypeError>
    requires { length (declarations files.now) < 2 ^ 28 }
    ensures { Answers program_tree result (well_typed (declarations files.now)) }
{
    let all = declarations(alloc, files)?;
    let tags = tags_of(alloc, &all)?;
    let heads = heads_of(alloc, tags, &all)?;
    let bodies = bodies_of(alloc, &heads, &all)?;
    let main = main_at(&heads)?;
    Ok(program_of(heads, bodies, main))
}
