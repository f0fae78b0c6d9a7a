//! The heads of declarations, added one by one: the rules on each in their order.

ghost use Rattle.std.specs.Prelude.{◌≡◌, ◌++◌, ◌∷◌, [], length, nat_le, not, IsTrue, IfOk, Ok};
ghost use Rattle.fx_c_ast.specs.ParsedTrees.{type_tree, member_trees, param_trees, decl_tree};
ghost use Rattle.fx_c_ast.specs.CheckedTrees.{ty_tree, member_types};
ghost use Rattle.fx_c_types_rules.specs.Checks.{Gives};
ghost use Rattle.fx_c_types_rules.specs.Structs.{place_32, struct_trees, member_trees as struct_members};
ghost use Rattle.fx_c_types_rules.specs.Locals.{local_trees};
ghost use Rattle.fx_c_types_heads.specs.Sizes.{AreKnown, IsKnown, all_have_elements};
ghost use Rattle.fx_c_types_heads.specs.Heads.{is_next, is_declared, struct_layout, with_struct, struct_head, with_global, global_head, with_function, function_head, head};
ghost use Rattle.fx_c_types_heads.specs.HeadsView.{heads_tree, global_tree, global_heads, function_head as head_tree, function_heads};

use crate::copies::{bytes, grant, init};
use crate::heads::{
    Head, Heads, are_params, is_answer, is_initial, members_repeat, params_of, params_repeat,
    place_32,
};
use crate::sizes::struct_within;
use crate::written::ty_of;
use fx_c_ast::checked::{TGlobal, TMember, TStruct};
use fx_c_ast::layout::Layout;
use fx_c_ast::parsed::{Decl, Grant, Init, Name, Param, TypeName};
use fx_c_ast::sequence::Sequence;
use fx_c_types_rules::fault::{Fault, TypeKind};
use std::alloc::Global;

// The number is that of the next struct.
fn is_next(found: Option<u32>, number: u32) -> bool
    ensures { result ≡ is_next found number }
{
    match found {
        Some(n) => n == number,
        None => false,
    }
}

// The layout of a struct with these members, which has to be small enough.
fn layout_of(layouts: &[Layout], members: &[TMember]) -> Result<Layout, Fault>
    requires known { AreKnown layouts.now }
    requires elements { IsTrue (all_have_elements (member_types members.now)) }
    ensures layout { Gives (λ l. l) result (struct_layout layouts.now (struct_members members.now)) }
    ensures known { IfOk result IsKnown }
{
    match struct_within(layouts, members) {
        Some(layout) => Ok(layout),
        None => Err(Fault::Rule(TypeKind::TooLarge)),
    }
}

fn push_struct(structs: &mut Vec<TStruct>, name: Name, members: Vec<TMember>) -> Result<(), Fault>
    ensures { Gives (λ _. struct_trees structs.new.items) result (Ok (struct_trees structs.old.items ++ record { name = name; members = struct_members members.items } ∷ [])) }
{
    let members = Sequence::from_vec(members);
    structs.push(TStruct { name, members })?;
    Ok(())
}

fn put_struct(
    heads: &mut Heads,
    layout: Layout,
    name: Name,
    members: Vec<TMember>,
) -> Result<(), Fault>
    requires { IsKnown layout }
    ensures { Gives (λ _. heads_tree heads.new) result (Ok (with_struct (heads_tree heads.old) layout name (struct_members members.items))) }
{
    heads.layouts.push(layout)?;
    push_struct(&mut heads.structs, name, members)?;
    Ok(())
}

// A struct's head.
fn add_struct(
    alloc: Global,
    heads: &mut Heads,
    name: &Name,
    fields: &[(TypeName, Name)],
) -> Result<(), Fault>
    ensures { Gives (λ _. heads_tree heads.new) result (struct_head (heads_tree heads.old) name.now (member_trees fields.now)) }
{
    if !is_next(heads.tags.find(name.as_slice()), heads.declared()) {
        return Err(Fault::Rule(TypeKind::Twice));
    }
    if members_repeat(alloc, fields)? {
        return Err(Fault::Rule(TypeKind::Twice));
    }
    let members = heads.members(alloc, fields)?;
    let layout = layout_of(&heads.layouts, &members)?;
    let name = bytes(alloc, name)?;
    put_struct(heads, layout, name, members)
}

// The number of the next global.
fn global_count(heads: &Heads) -> u32
    ensures { result ≡ place_32 (length (heads_tree heads.now).globals) }
{
    place_32(heads.globals.len())
}

// The number of the next function.
fn function_count(heads: &Heads) -> u32
    ensures { result ≡ place_32 (length (heads_tree heads.now).functions) }
{
    place_32(heads.functions.len())
}

fn push_global(globals: &mut Vec<TGlobal>, global: TGlobal) -> Result<(), Fault>
    ensures { Gives (λ _. global_heads globals.new.items) result (Ok (global_heads globals.old.items ++ global_tree global ∷ [])) }
{
    globals.push(global)?;
    Ok(())
}

fn put_global(alloc: Global, heads: &mut Heads, global: TGlobal) -> Result<(), Fault>
    requires { IsTrue (not (is_declared (heads_tree heads.old) global.name)) }
    ensures { Gives (λ _. heads_tree heads.new) result (Ok (with_global (heads_tree heads.old) (global_tree global))) }
{
    let number = global_count(heads);
    heads
        .global_names
        .declare(alloc, global.name.as_slice(), number)?;
    push_global(&mut heads.globals, global)?;
    Ok(())
}

/// A global as it is declared.
#[derive(Drop)]
struct GlobalDecl<'a> {
    library: u8,
    grant: &'a Grant,
    readers: &'a Grant,
    ty: &'a TypeName,
    name: &'a Name,
    init: &'a Init,
}

// A global's head.
fn add_global(alloc: Global, heads: &mut Heads, decl: &GlobalDecl<'_>) -> Result<(), Fault>
    ensures { Gives (λ _. heads_tree heads.new) result
        (global_head (heads_tree heads.old) decl.now.library decl.now.grant.now
        decl.now.readers.now (type_tree decl.now.ty.now) decl.now.name.now
        decl.now.init.now) }
{
    if heads.is_declared(decl.name.as_slice()) {
        return Err(Fault::Rule(TypeKind::Twice));
    }
    let ty = heads.object_type(alloc, heads.declared(), decl.ty)?;
    if !is_initial(&ty, decl.init) {
        return Err(Fault::Rule(TypeKind::Initialiser));
    }
    let library = decl.library;
    let shared = grant(alloc, decl.grant)?;
    let readers = grant(alloc, decl.readers)?;
    let name = bytes(alloc, decl.name)?;
    let init = init(alloc, decl.init)?;
    let global = TGlobal {
        library,
        grant: shared,
        readers,
        ty,
        name,
        init,
    };
    put_global(alloc, heads, global)
}

fn push_head(functions: &mut Vec<Head>, head: Head) -> Result<(), Fault>
    ensures { Gives (λ _. function_heads functions.new.items) result (Ok (function_heads functions.old.items ++ head_tree head ∷ [])) }
{
    functions.push(head)?;
    Ok(())
}

fn put_function(alloc: Global, heads: &mut Heads, head: Head) -> Result<(), Fault>
    requires { IsTrue (not (is_declared (heads_tree heads.old) head.name)) }
    ensures { Gives (λ _. heads_tree heads.new) result (Ok (with_function (heads_tree heads.old) (head_tree head))) }
{
    let number = function_count(heads);
    heads
        .function_names
        .declare(alloc, head.name.as_slice(), number)?;
    push_head(&mut heads.functions, head)?;
    Ok(())
}

// At most six parameters.
fn are_few(params: &[Param]) -> bool
    ensures { result ≡ nat_le (length (param_trees params.now)) 6 }
{
    params.len() <= 6
}

/// A function as its head declares it.
#[derive(Drop)]
struct FunctionDecl<'a> {
    library: u8,
    entry: bool,
    answer: &'a TypeName,
    name: &'a Name,
    params: &'a [Param],
}

// A function's head.
fn add_function(alloc: Global, heads: &mut Heads, decl: &FunctionDecl<'_>) -> Result<(), Fault>
    ensures { Gives (λ _. heads_tree heads.new) result
        (function_head (heads_tree heads.old) decl.now.library decl.now.entry
        (type_tree decl.now.answer.now) decl.now.name.now
        (param_trees decl.now.params.now)) }
{
    if heads.is_declared(decl.name.as_slice()) {
        return Err(Fault::Rule(TypeKind::Twice));
    }
    if params_repeat(alloc, decl.params)? {
        return Err(Fault::Rule(TypeKind::Twice));
    }
    if !(is_answer(&heads.tags, decl.answer) & are_params(&heads.tags, decl.params)) {
        return Err(Fault::Rule(TypeKind::UnknownType));
    }
    if !are_few(decl.params) {
        return Err(Fault::Rule(TypeKind::TooManyParameters));
    }
    let library = decl.library;
    let entry = decl.entry;
    let result = ty_of(alloc, &heads.tags, decl.answer)?;
    let name = bytes(alloc, decl.name)?;
    let params = Sequence::from_vec(params_of(alloc, &heads.tags, decl.params)?);
    let head = Head {
        library,
        entry,
        result,
        name,
        params,
    };
    put_function(alloc, heads, head)
}

/// The head of a declaration in a library.
pub fn add(alloc: Global, heads: &mut Heads, library: u8, decl: &Decl) -> Result<(), Fault>
    ensures { Gives (λ _. heads_tree heads.new) result (head (heads_tree heads.old) library (decl_tree decl.now)) }
{
    match decl {
        Decl::Struct { name, members } => add_struct(alloc, heads, name, members.as_slice()),
        Decl::Global {
            grant,
            readers,
            ty,
            name,
            init,
        } => {
            let decl = GlobalDecl {
                library,
                grant,
                readers,
                ty,
                name,
                init,
            };
            add_global(alloc, heads, &decl)
        }
        Decl::Function {
            entry,
            result,
            name,
            params,
            body: _,
        } => {
            let decl = FunctionDecl {
                library,
                entry: *entry,
                answer: result,
                name,
                params: params.as_slice(),
            };
            add_function(alloc, heads, &decl)
        }
    }
}
