//! Sizes of types, by a table of the structs' layouts.

ghost use Rattle.std.specs.Prelude.{◌≡◌, IfSome, take, slice_index_or};
ghost use Rattle.fx_c_ast.specs.CheckedTrees.{VoidTy, ty_tree, member_types};
ghost use Rattle.fx_c_ast.specs.Layout.{type_layout, round_up, members_end, greatest_align, members_layout};
ghost use Rattle.fx_c_ast.specs.Members.{member_place};
ghost use Rattle.fx_c_mean_control.specs.Tables.{looked_up};

use fx_c_ast::checked::{TMember, Ty};
use fx_c_ast::layout::Layout;
use fx_c_mean_blocks::cells::integer_bytes;

/// The layout of a struct that is not there.
const NOWHERE: Layout = Layout { size: 0, align: 1 };

fn struct_at(table: &[Layout], n: u32) -> Layout
    ensures { result ≡ looked_up table.now n }
{
    match table.get(n as usize) {
        Some(layout) => *layout,
        None => NOWHERE,
    }
}

/// The layout of a type, or None where its size is not below 2^64.
pub fn layout(table: &[Layout], ty: &Ty) -> Option<Layout>
    ensures { IfSome result (λ l. l ≡ type_layout (looked_up table.now) (ty_tree ty.now)) }
{
    match ty {
        Ty::Void => Some(NOWHERE),
        Ty::Int(i) => {
            let size = u64::from(integer_bytes(*i));
            Some(Layout { size, align: size })
        }
        Ty::Struct(n) => Some(struct_at(table, *n)),
        Ty::Ptr(_) => Some(Layout { size: 8, align: 8 }),
        Ty::Array(of, count) => {
            let of = layout(table, of)?;
            let size = of.size.checked_mul(u64::from(*count))?;
            Some(Layout {
                size,
                align: of.align,
            })
        }
    }
}

/// The next multiple of an alignment, where it is below 2^64 and the alignment is not 0.
fn next_multiple(at: u64, align: u64) -> Option<u64>
    ensures { IfSome result (λ n. n ≡ round_up at align) }
{
    if align == 0 {
        return None;
    }
    let last = at.checked_add(align - 1)?;
    Some(last / align * align)
}

/// Where members end that begin after the first bytes.
fn end_of(table: &[Layout], members: &[TMember], at: u64) -> Option<u64>
    ensures { IfSome result (λ n. n ≡ members_end (looked_up table.now) at (member_types members.now)) }
{
    let mut end = at;
    for member in members {
        let of = layout(table, &member.ty)?;
        end = next_multiple(end, of.align)?.checked_add(of.size)?;
    }
    Some(end)
}

/// Where the members before one end.
#[tactic(auto, using(crate::proofs::Members::types_take, crate::proofs::Members::types_all))]
fn end_before(table: &[Layout], members: &[TMember], member: usize) -> Option<u64>
    ensures { IfSome result (λ n. n ≡ members_end (looked_up table.now) 0 (take member (member_types members.now))) }
{
    if member < members.len() {
        let end = end_of(table, &members[..member], 0)?;
        return Some(end);
    }
    let end = end_of(table, members, 0)?;
    Some(end)
}

/// The alignment of a member.
#[tactic(auto, using(crate::proofs::Members::type_at, crate::proofs::Members::no_type))]
fn align_at(table: &[Layout], members: &[TMember], member: usize) -> Option<u64>
    ensures { IfSome result (λ n. n ≡ (type_layout (looked_up table.now) (slice_index_or (member_types members.now) member VoidTy)).align) }
{
    if member < members.len() {
        let of = layout(table, &members[member].ty)?;
        return Some(of.align);
    }
    Some(1)
}

/// Where a member of a struct begins: at the next multiple of its alignment behind those before it.
pub fn member_offset(table: &[Layout], members: &[TMember], member: usize) -> Option<u64>
    ensures { IfSome result (λ n. n ≡ member_place (looked_up table.now) (member_types members.now) member) }
{
    let end = end_before(table, members, member)?;
    let align = align_at(table, members, member)?;
    next_multiple(end, align)
}

/// The layout of a struct of these members, by the layouts of the structs before it, or None where its
/// size is not below 2^64.
pub fn struct_layout(table: &[Layout], members: &[TMember]) -> Option<Layout>
    ensures { IfSome result (λ l. l ≡ members_layout (looked_up table.now) (member_types members.now)) }
{
    let align = greatest(table, members)?;
    let size = next_multiple(end_of(table, members, 0)?, align)?;
    Some(Layout { size, align })
}

fn greatest(table: &[Layout], members: &[TMember]) -> Option<u64>
    ensures { IfSome result (λ n. n ≡ greatest_align (looked_up table.now) 1 (member_types members.now)) }
{
    let mut align: u64 = 1;
    for member in members {
        align = align.max(layout(table, &member.ty)?.align);
    }
    Some(align)
}
