//! Sizes and alignments of types in bytes, without taking memory.

ghost use Rattle.std.specs.Prelude.{◌≡◌, ◌+◌, ◌*◌, ◌<◌, ◌≤◌, length};
ghost use Rattle.fx_c_ast.specs.CheckedTrees.{ty_tree, struct_types};
ghost use Rattle.fx_c_ast.specs.Layout.{integer_size, round_up, known_layouts, layout_of, type_layout, IsSized, StructsAreSized};
ghost use Rattle.fx_c_ast.specs.Elements.{element_of, scaled, IsElement, IsScaled};

use crate::checked::{TProgram, TStruct, Ty};
use crate::operator::IntType;

/// How much room a type takes, and of which number its places are multiples, in bytes.
#[derive(Clone, Copy, Debug, PartialEq, Eq)]
pub struct Layout {
    pub size: u64,
    pub align: u64,
}

/// The bytes of a type (System V ABI for x86-64, "Data representation": `char` 1, `short` 2, `int` 4,
/// `long` and pointers 8; a struct is rounded up to its greatest alignment).
pub fn size_of(p: &TProgram, t: &Ty) -> u64
    requires structs { StructsAreSized (struct_types p.now.structs) }
    requires sized { IsSized (known_layouts (struct_types p.now.structs)) (length p.now.structs) (ty_tree t.now) }
    ensures { result ≡ (layout_of (struct_types p.now.structs) (ty_tree t.now)).size }
{
    laid_out(p.structs.as_slice(), t).size
}

/// The number of bytes of which each place of a type is a multiple.
pub fn align_of(p: &TProgram, t: &Ty) -> u64
    requires structs { StructsAreSized (struct_types p.now.structs) }
    requires sized { IsSized (known_layouts (struct_types p.now.structs)) (length p.now.structs) (ty_tree t.now) }
    ensures { result ≡ (layout_of (struct_types p.now.structs) (ty_tree t.now)).align }
{
    laid_out(p.structs.as_slice(), t).align
}

fn laid_out(structs: &[TStruct], t: &Ty) -> Layout
    requires structs { StructsAreSized (struct_types structs.now) }
    requires sized { IsSized (known_layouts (struct_types structs.now)) (length structs.now) (ty_tree t.now) }
    ensures { result ≡ layout_of (struct_types structs.now) (ty_tree t.now) }
{
    repeated(element_layout(structs, element(t)), t)
}

// The type of the elements of arrays of arrays, or the type itself.
fn element(t: &Ty) -> &Ty
    ensures { ty_tree result.now ≡ element_of (ty_tree t.now) }
{
    match t {
        Ty::Array(of, _) => element(of),
        _ => t,
    }
}

// The layout of a type whose elements have a layout.
fn repeated(of: Layout, t: &Ty) -> Layout
    requires { IsScaled of (ty_tree t.now) }
    ensures { result ≡ scaled of (ty_tree t.now) }
{
    match t {
        Ty::Array(inner, count) => {
            let inner = repeated(of, inner);
            Layout {
                size: inner.size * *count as u64,
                align: inner.align,
            }
        }
        _ => of,
    }
}

/// The bytes of an integer type (System V ABI for x86-64, "Data representation").
pub fn integer_size(i: IntType) -> u64
    ensures { result ≡ integer_size i }
{
    match i {
        IntType::Char | IntType::Uchar => 1,
        IntType::Short | IntType::Ushort => 2,
        IntType::Int | IntType::Uint => 4,
        IntType::Long | IntType::Ulong => 8,
    }
}

fn integer_layout(i: IntType) -> Layout
    ensures size { result.size ≡ integer_size i }
    ensures align { result.align ≡ integer_size i }
{
    let size = integer_size(i);
    Layout { size, align: size }
}

/// The next multiple of an alignment, in bytes.
pub fn next_multiple(at: u64, align: u64) -> u64
    requires small { at ≤ 67108864 }
    requires positive { 1 ≤ align }
    requires bounded { align ≤ 8 }
    ensures { result ≡ round_up at align }
{
    (at + (align - 1)) / align * align
}

#[cycle(structs)]
fn element_layout(structs: &[TStruct], t: &Ty) -> Layout
    requires structs { StructsAreSized (struct_types structs.now) }
    requires sized { IsSized (known_layouts (struct_types structs.now)) (length structs.now) (ty_tree t.now) }
    requires element { IsElement (ty_tree t.now) }
    ensures layout { result ≡ layout_of (struct_types structs.now) (ty_tree t.now) }
    ensures positive { 1 ≤ result.align }
    ensures bounded { result.align ≤ 8 }
{
    match t {
        Ty::Int(i) => integer_layout(*i),
        Ty::Struct(n) => struct_layout(structs, *n),
        Ty::Ptr(_) => Layout { size: 8, align: 8 },
        Ty::Void | Ty::Array(..) => unreachable!(),
    }
}

#[cycle(structs)]
fn struct_layout(structs: &[TStruct], n: u32) -> Layout
    requires structs { StructsAreSized (struct_types structs.now) }
    requires there { n < length structs.now }
    requires small { (known_layouts (struct_types structs.now) n).size ≤ 67108864 }
    ensures layout { result ≡ known_layouts (struct_types structs.now) n }
    ensures positive { 1 ≤ result.align }
    ensures bounded { result.align ≤ 8 }
{
    let of = &structs[n as usize];
    let mut end: u64 = 0;
    let mut align: u64 = 1;
    for member in of.members.as_slice() {
        let inner = repeated(element_layout(structs, element(&member.ty)), &member.ty);
        end = next_multiple(end, inner.align) + inner.size;
        align = align.max(inner.align);
    }
    Layout {
        size: next_multiple(end, align),
        align,
    }
}
