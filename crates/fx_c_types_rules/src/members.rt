//! Members of structs: `e.m` and `e->m`.

ghost use Rattle.std.specs.Prelude.{◌≡◌, Ok, option_map};
ghost use Rattle.fx_c_ast.specs.CheckedTrees.{ty_tree, texpr_tree};
ghost use Rattle.fx_c_types_rules.specs.Checks.{Gives};
ghost use Rattle.fx_c_types_rules.specs.Structs.{member_trees, struct_trees, member_at, struct_members, place_32, member_node, member, arrow_node, target_of, arrow_target, arrow};

use crate::category::ArrowTarget;
use crate::fault::{Fault, TypeKind};
use crate::types::copied;
use crate::values::type_of;
use fx_c_ast::checked::{TExpr, TKind, TMember, TStruct, Ty};
use std::alloc::Global;

/// A member that is found: its place in the struct, and its type.
#[derive(Drop)]
pub struct Found<'a> {
    pub place: usize,
    pub ty: &'a Ty,
}

/// The member with a name.
pub fn find<'a>(members: &'a [TMember], name: &[u8]) -> Option<Found<'a>>
    ensures { option_map (λ f. (f.place, ty_tree f.ty.now)) result ≡ member_at 0 name.now (member_trees members.now) }
{
    for (place, member) in members.iter().enumerate() {
        if member.name.as_slice() == name {
            let ty = &member.ty;
            return Some(Found { place, ty });
        }
    }
    None
}

/// The members of a struct, if it is among the first `declared`, which are complete.
fn members_of(structs: &[TStruct], declared: u32, n: u32) -> &[TMember]
    ensures { member_trees result.now ≡ struct_members (struct_trees structs.now) declared n }
{
    if n >= declared {
        return &[];
    }
    if n as usize >= structs.len() {
        return &[];
    }
    structs[n as usize].members.as_slice()
}

// A number that 32 bits hold.
fn place_32(place: usize) -> u32
    ensures { result ≡ place_32 place }
{
    place.min(4294967295) as u32
}

fn member_node(alloc: Global, e: TExpr, found: Option<Found<'_>>) -> Result<TExpr, Fault>
    ensures { Gives texpr_tree result (member_node (texpr_tree e) (option_map (λ f. (f.place, ty_tree f.ty.now)) found.entry)) }
{
    match found {
        None => Err(Fault::Rule(TypeKind::UnknownName)),
        Some(found) => {
            let ty = copied(alloc, found.ty)?;
            let kind = TKind::Member(Box::new(alloc, e)?, place_32(found.place));
            Ok(TExpr { ty, kind })
        }
    }
}

fn arrow_node(alloc: Global, e: TExpr, found: Option<Found<'_>>) -> Result<TExpr, Fault>
    ensures { Gives texpr_tree result (arrow_node (texpr_tree e) (option_map (λ f. (f.place, ty_tree f.ty.now)) found.entry)) }
{
    match found {
        None => Err(Fault::Rule(TypeKind::UnknownName)),
        Some(found) => {
            let ty = copied(alloc, found.ty)?;
            let kind = TKind::Arrow(Box::new(alloc, e)?, place_32(found.place));
            Ok(TExpr { ty, kind })
        }
    }
}

/// `e.m`, whose members are those of the first `declared` structs.
pub fn member(
    alloc: Global,
    structs: &[TStruct],
    declared: u32,
    name: &[u8],
    e: TExpr,
) -> Result<TExpr, Fault>
    ensures { Gives texpr_tree result (member (struct_trees structs.now) declared name.now (texpr_tree e)) }
{
    match type_of(&e) {
        Ty::Struct(n) => {
            let found = find(members_of(structs, declared, *n), name);
            member_node(alloc, e, found)
        }
        _ => Err(Fault::Rule(TypeKind::UnknownName)),
    }
}

// What a type is left of `->`.
fn arrow_target(t: &Ty) -> ArrowTarget
    ensures { result ≡ arrow_target (ty_tree t.now) }
{
    match t {
        Ty::Ptr(to) => target_of(to),
        Ty::Int(_) => ArrowTarget::Refused(TypeKind::NotPointer),
        _ => ArrowTarget::Refused(TypeKind::NotInteger),
    }
}

// What a pointer's target is left of `->`.
fn target_of(t: &Ty) -> ArrowTarget
    ensures { result ≡ target_of (ty_tree t.now) }
{
    match t {
        Ty::Struct(n) => ArrowTarget::Structure(*n),
        Ty::Void => ArrowTarget::Refused(TypeKind::NotPointer),
        _ => ArrowTarget::Refused(TypeKind::UnknownName),
    }
}

/// `e->m` of a pointer to a complete struct.
pub fn arrow(
    alloc: Global,
    structs: &[TStruct],
    declared: u32,
    name: &[u8],
    e: TExpr,
) -> Result<TExpr, Fault>
    ensures { Gives texpr_tree result (arrow (struct_trees structs.now) declared name.now (texpr_tree e)) }
{
    match arrow_target(type_of(&e)) {
        ArrowTarget::Structure(n) => {
            if n >= declared {
                return Err(Fault::Rule(TypeKind::NotPointer));
            }
            let found = find(members_of(structs, declared, n), name);
            arrow_node(alloc, e, found)
        }
        ArrowTarget::Refused(kind) => Err(Fault::Rule(kind)),
    }
}
