//! Sizes of types and structs, as far as they are at most 67,108,864 bytes.

ghost use Rattle.std.specs.Prelude.{◌≡◌, ◌<◌, ◌≤◌, IsTrue, MatchOption};
ghost use Rattle.fx_c_ast.specs.CheckedTrees.{ty_tree, member_types};
ghost use Rattle.fx_c_ast.specs.Layout.{type_layout, members_layout};
ghost use Rattle.fx_c_types_heads.specs.Written.{has_elements};
ghost use Rattle.fx_c_types_heads.specs.Sizes.{known, AreKnown, all_have_elements};

use fx_c_ast::checked::{TMember, Ty};
use fx_c_ast::layout::{Layout, integer_size, next_multiple};

/// The most bytes that a type may have.
pub const LARGEST: u64 = 67108864;

fn struct_layout(layouts: &[Layout], n: u32) -> Layout
    ensures { result ≡ known layouts.now n }
{
    match layouts.get(n as usize) {
        Some(layout) => *layout,
        None => Layout { size: 0, align: 1 },
    }
}

/// The layout of a type that has at most 67,108,864 bytes, where those of structs are known.
pub fn layout_within(layouts: &[Layout], t: &Ty) -> Option<Layout>
    requires known { AreKnown layouts.now }
    requires elements { IsTrue (has_elements (ty_tree t.now)) }
    ensures { MatchOption result (67108864 < (type_layout (known layouts.now) (ty_tree t.now)).size)
        (λ l. (l ≡ type_layout (known layouts.now) (ty_tree t.now)) × (l.size ≤ 67108864)
        × (1 ≤ l.align) × (l.align ≤ 8)) }
{
    match t {
        Ty::Void => Some(Layout { size: 0, align: 1 }),
        Ty::Int(i) => {
            let size = integer_size(*i);
            Some(Layout { size, align: size })
        }
        Ty::Struct(n) => Some(struct_layout(layouts, *n)),
        Ty::Ptr(_) => Some(Layout { size: 8, align: 8 }),
        Ty::Array(of, count) => {
            let of = layout_within(layouts, of)?;
            let size = of.size.checked_mul(u64::from(*count))?;
            if size > LARGEST {
                return None;
            }
            Some(Layout {
                size,
                align: of.align,
            })
        }
    }
}

/// The layout of a struct that has at most 67,108,864 bytes.
pub fn struct_within(layouts: &[Layout], members: &[TMember]) -> Option<Layout>
    requires known { AreKnown layouts.now }
    requires elements { IsTrue (all_have_elements (member_types members.now)) }
    ensures { MatchOption result
        (67108864 < (members_layout (known layouts.now) (member_types members.now)).size)
        (λ l. (l ≡ members_layout (known layouts.now) (member_types members.now))
        × (l.size ≤ 67108864) × (1 ≤ l.align) × (l.align ≤ 8)) }
{
    let mut end: u64 = 0;
    let mut align: u64 = 1;
    for member in members {
        let inner = match layout_within(layouts, &member.ty) {
            Some(inner) => inner,
            None => return None,
        };
        end = next_multiple(end, inner.align) + inner.size;
        if end > LARGEST {
            return None;
        }
        align = align.max(inner.align);
    }
    let size = next_multiple(end, align);
    if size > LARGEST {
        return None;
    }
    Some(Layout { size, align })
}

/// The size of a type that has at most 67,108,864 bytes.
pub fn size_within(layouts: &[Layout], t: &Ty) -> Option<u64>
    requires { AreKnown layouts.now }
    ensures { MatchOption result (67108864 < (type_layout (known layouts.now) (ty_tree t.now)).size) (λ n. (n ≡ (type_layout (known layouts.now) (ty_tree t.now)).size) × (n ≤ 67108864)) }
{
    match t {
        Ty::Void => Some(0),
        Ty::Int(i) => Some(integer_size(*i)),
        Ty::Struct(n) => Some(struct_layout(layouts, *n).size),
        Ty::Ptr(_) => Some(8),
        Ty::Array(of, count) => {
            if *count == 0 {
                return Some(0);
            }
            let size = size_within(layouts, of)?.checked_mul(u64::from(*count))?;
            if size > LARGEST {
                return None;
            }
            Some(size)
        }
    }
}
