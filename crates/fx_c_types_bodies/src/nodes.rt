//! Expressions that name something: variables, strings, functions, types.

ghost use Rattle.std.specs.Prelude.{◌≡◌, None, Ok, option_map, slice_get};
ghost use Rattle.fx_c_ast.specs.ParsedTrees.{type_tree};
ghost use Rattle.fx_c_ast.specs.CheckedTrees.{ECall, EGate, ty_tree, texpr_tree, texpr_trees};
ghost use Rattle.fx_c_types_rules.specs.Checks.{Gives};
ghost use Rattle.fx_c_types_rules.specs.Locals.{local_trees};
ghost use Rattle.fx_c_types_rules.specs.Values.{value_of};
ghost use Rattle.fx_c_types_rules.specs.Operators.{element};
ghost use Rattle.fx_c_types_rules.specs.Structs.{arrow};
ghost use Rattle.fx_c_types_heads.specs.HeadsView.{heads_tree, global_heads, function_head, function_heads};
ghost use Rattle.fx_c_types_bodies.specs.Bodies.{in_blocks, local_named, type_or_void, global_or_void, local_node, global_node, variable, function_named, text_node, cast_node, size_of_type, callee, CalleeTree, call, gate, spawn, is_long, are_one_long, first_value, place_16};
ghost use Rattle.fx_c_types_bodies.specs.Views.{scope_tree, body_tree};

use crate::scope::{Body, Scope};
use fx_c_ast::checked::{TExpr, TGlobal, TKind, TLocal, Ty};
use fx_c_ast::operator::IntType;
use fx_c_ast::parsed::{Bytes, TypeName};
use fx_c_ast::sequence::Sequence;
use fx_c_types_heads::heads::{Head, Heads};
use fx_c_types_heads::names::Names;
use fx_c_types_heads::written::{is_named, ty_of};
use fx_c_types_rules::calls::arguments;
use fx_c_types_rules::category::Category;
use fx_c_types_rules::fault::{Fault, TypeKind};
use fx_c_types_rules::members::arrow;
use fx_c_types_rules::operators::{cast, element};
use fx_c_types_rules::types::{copied, is_complete, is_void, same};
use fx_c_types_rules::values::{agrees, category_of, converted, value};
use std::alloc::Global;

// The local that a name means: inner blocks hide outer ones.
fn in_blocks(blocks: &[Names], name: &[u8]) -> Option<u32>
    ensures { result ≡ in_blocks None name.now blocks.now }
{
    let mut number = None;
    for block in blocks {
        if let Some(n) = block.find(name) {
            number = Some(n);
        }
    }
    number
}

/// A local's number as 16 bits hold it.
pub fn place_16(number: usize) -> u16
    ensures { result ≡ place_16 number }
{
    number.min(65535) as u16
}

// The type of a local.
fn local_type(alloc: Global, locals: &[TLocal], number: usize) -> Result<Ty, Fault>
    ensures { Gives ty_tree result (Ok (type_or_void (slice_get (local_trees locals.now) number))) }
{
    if number >= locals.len() {
        return Ok(Ty::Void);
    }
    copied(alloc, &locals[number].ty)
}

// A local as an object.
fn local_node(alloc: Global, body: &Body, number: u32) -> Result<TExpr, Fault>
    ensures { Gives texpr_tree result (Ok (local_node (body_tree body.now) number)) }
{
    let number = number as usize;
    let ty = local_type(alloc, &body.locals, number)?;
    let kind = TKind::Local(place_16(number));
    Ok(TExpr { ty, kind })
}

// The type of a global.
fn global_type(alloc: Global, globals: &[TGlobal], number: usize) -> Result<Ty, Fault>
    ensures { Gives ty_tree result (Ok (global_or_void (slice_get (global_heads globals.now) number))) }
{
    if number >= globals.len() {
        return Ok(Ty::Void);
    }
    copied(alloc, &globals[number].ty)
}

// A global as an object, if there is one.
fn global_node(alloc: Global, heads: &Heads, number: Option<u32>) -> Result<TExpr, Fault>
    ensures { Gives texpr_tree result (global_node (heads_tree heads.now) number) }
{
    match number {
        None => Err(Fault::Rule(TypeKind::UnknownName)),
        Some(number) => {
            let ty = global_type(alloc, &heads.globals, number as usize)?;
            let kind = TKind::Global(number);
            Ok(TExpr { ty, kind })
        }
    }
}

/// A name as an object: a local, or a global that no local hides.
pub fn variable(alloc: Global, heads: &Heads, body: &Body, name: &[u8]) -> Result<TExpr, Fault>
    ensures { Gives texpr_tree result (variable (heads_tree heads.now) (body_tree body.now) name.now) }
{
    match in_blocks(&body.blocks, name) {
        Some(number) => local_node(alloc, body, number),
        None => global_node(alloc, heads, heads.global_names.find(name)),
    }
}

/// A function that is called: its number and its head.
#[derive(Drop)]
pub struct Called<'a> {
    pub number: u32,
    pub head: &'a Head,
}

// The number of the function that a name means, if no local hides it.
fn function_number(heads: &Heads, body: &Body, name: &[u8]) -> Option<u32>
    ensures { result ≡ function_named (heads_tree heads.now) (body_tree body.now) name.now }
{
    match in_blocks(&body.blocks, name) {
        Some(_) => None,
        None => heads.function_names.find(name),
    }
}

fn head_at(functions: &[Head], number: usize) -> Option<&Head>
    ensures { option_map (λ f. function_head f.now) result ≡ slice_get (function_heads functions.now) number }
{
    if number >= functions.len() {
        return None;
    }
    Some(&functions[number])
}

/// The function that a name means, if no local hides it.
pub fn callee<'a>(heads: &'a Heads, body: &Body, name: &[u8]) -> Option<Called<'a>>
    ensures { option_map (λ f. record { number = f.number; head = function_head f.head.now }) result ≡ callee (heads_tree heads.now) (body_tree body.now) name.now }
{
    match function_number(heads, body, name) {
        None => None,
        Some(number) => match head_at(&heads.functions, number as usize) {
            None => None,
            Some(head) => Some(Called { number, head }),
        },
    }
}

/// A string: an object of its own, with a zero byte at its end.
pub fn text(alloc: Global, body: &mut Body, bytes: &Bytes) -> Result<TExpr, Fault>
    ensures { Gives (λ x. (texpr_tree x, body_tree body.new)) result (text_node (body_tree body.old) bytes.now) }
{
    if bytes.len() >= 67108864 {
        return Err(Fault::Rule(TypeKind::TooLarge));
    }
    let count = bytes.len() as u32 + 1;
    let mut zero_ended = Vec::from_slice(alloc, bytes.as_slice())?;
    zero_ended.push(0)?;
    let number = body.literals.len().min(4294967295) as u32;
    body.literals.push(Sequence::from_vec(zero_ended))?;
    let ty = Ty::Array(Box::new(alloc, Ty::Int(IntType::Char))?, count);
    let kind = TKind::Literal(number);
    Ok(TExpr { ty, kind })
}

/// A cast to a written type.
pub fn cast_node(alloc: Global, scope: &Scope<'_>, t: &TypeName, e: TExpr) -> Result<TExpr, Fault>
    ensures { Gives texpr_tree result (cast_node (scope_tree scope.now) (type_tree t.now) (texpr_tree e)) }
{
    let ty = ty_of(alloc, &scope.heads.tags, t)?;
    if !is_named(&scope.heads.tags, t) {
        return Err(Fault::Rule(TypeKind::UnknownType));
    }
    if !(is_void(&ty) | is_complete(scope.declared, &ty)) {
        return Err(Fault::Rule(TypeKind::UnknownType));
    }
    let e = value(alloc, e)?;
    cast(alloc, ty, e)
}

/// `sizeof` of a written type.
pub fn size_of_type(alloc: Global, scope: &Scope<'_>, t: &TypeName) -> Result<TExpr, Fault>
    ensures { Gives texpr_tree result (size_of_type (scope_tree scope.now) (type_tree t.now)) }
{
    let of = scope.heads.object_type(alloc, scope.declared, t)?;
    let ty = Ty::Int(IntType::Ulong);
    let kind = TKind::Size(of);
    Ok(TExpr { ty, kind })
}

fn call_node(ty: Ty, number: u32, args: Vec<TExpr>) -> TExpr
    ensures { texpr_tree result ≡ ECall (ty_tree ty) number (texpr_trees args.items) }
{
    let kind = TKind::Call(number, args);
    TExpr { ty, kind }
}

fn gate_node(ty: Ty, number: u32, args: Vec<TExpr>) -> TExpr
    ensures { texpr_tree result ≡ EGate (ty_tree ty) number (texpr_trees args.items) }
{
    let kind = TKind::Gate(number, args);
    TExpr { ty, kind }
}

/// A call, which stays within the library.
pub fn call(
    alloc: Global,
    library: u8,
    callee: Option<Called<'_>>,
    args: Vec<TExpr>,
) -> Result<TExpr, Fault>
    ensures { Gives texpr_tree result (call library (option_map (λ f. record { number = f.number; head = function_head f.head.now }) callee.entry) (texpr_trees args.items)) }
{
    let Some(f) = callee else {
        return Err(Fault::Rule(TypeKind::UnknownName));
    };
    let args = arguments(alloc, f.head.params.as_slice(), args)?;
    if library != f.head.library {
        return Err(Fault::Rule(TypeKind::CrossCall));
    }
    let ty = copied(alloc, &f.head.result)?;
    Ok(call_node(ty, f.number, args))
}

/// A gate call, which goes to an entry function of any library.
pub fn gate(alloc: Global, callee: Option<Called<'_>>, args: Vec<TExpr>) -> Result<TExpr, Fault>
    ensures { Gives texpr_tree result (gate (option_map (λ f. record { number = f.number; head = function_head f.head.now }) callee.entry) (texpr_trees args.items)) }
{
    let Some(f) = callee else {
        return Err(Fault::Rule(TypeKind::UnknownName));
    };
    let args = arguments(alloc, f.head.params.as_slice(), args)?;
    if !f.head.entry {
        return Err(Fault::Rule(TypeKind::NotEntry));
    }
    let ty = copied(alloc, &f.head.result)?;
    Ok(gate_node(ty, f.number, args))
}

fn is_long(t: &Ty) -> bool
    ensures { result ≡ is_long (ty_tree t.now) }
{
    same(t, &Ty::Int(IntType::Long))
}

fn are_one_long(params: &[TLocal]) -> bool
    ensures { result ≡ are_one_long (local_trees params.now) }
{
    if params.len() != 1 {
        return false;
    }
    is_long(&params[0].ty)
}

// The value that a thread starts with, as a `long`.
fn first_value(alloc: Global, head: &Head, e: TExpr) -> Result<TExpr, Fault>
    ensures { Gives texpr_tree result (first_value (function_head head.now) (texpr_tree e)) }
{
    match category_of(&e) {
        Category::Integer(_) | Category::Pointer => {}
        _ => return Err(Fault::Rule(TypeKind::NotInteger)),
    }
    if !(is_long(&head.result) & are_one_long(head.params.as_slice())) {
        return Err(Fault::Rule(TypeKind::Arguments));
    }
    let long = Ty::Int(IntType::Long);
    if !agrees(&long, &e) {
        return Err(Fault::Rule(TypeKind::Arguments));
    }
    converted(alloc, long, e)
}

/// A thread's start in a function of this library that takes and gives a `long`.
pub fn spawn(
    alloc: Global,
    library: u8,
    callee: Option<Called<'_>>,
    e: TExpr,
) -> Result<TExpr, Fault>
    ensures { Gives texpr_tree result (spawn library (option_map (λ f. record { number = f.number; head = function_head f.head.now }) callee.entry) (texpr_tree e)) }
{
    let Some(f) = callee else {
        return Err(Fault::Rule(TypeKind::UnknownName));
    };
    let e = first_value(alloc, f.head, e)?;
    if f.head.library != library {
        return Err(Fault::Rule(TypeKind::CrossCall));
    }
    let ty = Ty::Int(IntType::Long);
    let kind = TKind::Spawn(f.number, Box::new(alloc, e)?);
    Ok(TExpr { ty, kind })
}

/// `a[b]`.
pub fn index(alloc: Global, scope: &Scope<'_>, a: TExpr, b: TExpr) -> Result<TExpr, Fault>
    ensures { Gives texpr_tree result (element scope.now.declared (value_of (texpr_tree a)) (value_of (texpr_tree b))) }
{
    let a = value(alloc, a)?;
    let b = value(alloc, b)?;
    element(alloc, scope.declared, a, b)
}

/// `e->m`.
pub fn through(alloc: Global, scope: &Scope<'_>, name: &[u8], e: TExpr) -> Result<TExpr, Fault>
    ensures { Gives texpr_tree result (arrow (heads_tree scope.now.heads.now).structs scope.now.declared name.now (value_of (texpr_tree e))) }
{
    let e = value(alloc, e)?;
    arrow(alloc, &scope.heads.structs, scope.declared, name, e)
}
