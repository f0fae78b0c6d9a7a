//! Types as they are written: a struct's tag stands for its number.

ghost use Rattle.std.specs.Prelude.{◌≡◌, Ok};
ghost use Rattle.fx_c_ast.specs.ParsedTrees.{type_tree};
ghost use Rattle.fx_c_ast.specs.CheckedTrees.{ty_tree};
ghost use Rattle.fx_c_types_rules.specs.Checks.{Gives};
ghost use Rattle.fx_c_types_heads.specs.Written.{tag_number, ty_of, is_named, has_elements, is_object, written_category};

use crate::names::Names;
use fx_c_ast::checked::Ty;
use fx_c_ast::parsed::TypeName;
use fx_c_types_rules::category::Category;
use fx_c_types_rules::fault::Fault;
use fx_c_types_rules::types::{is_complete, pointer_to};
use std::alloc::Global;

fn tag_number(tags: &Names, tag: &[u8]) -> u32
    ensures { result ≡ tag_number tags.now tag.now }
{
    match tags.find(tag) {
        Some(number) => number,
        None => u32::MAX,
    }
}

/// The type that a written type means. A tag that is not declared stands for a struct that is
/// nowhere complete.
pub fn ty_of(alloc: Global, tags: &Names, t: &TypeName) -> Result<Ty, Fault>
    ensures { Gives ty_tree result (Ok (ty_of tags.now (type_tree t.now))) }
{
    match t {
        TypeName::Void => Ok(Ty::Void),
        TypeName::Int(i) => Ok(Ty::Int(*i)),
        TypeName::Struct(tag) => Ok(Ty::Struct(tag_number(tags, tag.as_slice()))),
        TypeName::Ptr(to) => pointer_to(alloc, ty_of(alloc, tags, to)?),
        TypeName::Array(of, count) => {
            let of = ty_of(alloc, tags, of)?;
            Ok(Ty::Array(Box::new(alloc, of)?, *count))
        }
    }
}

/// Whether each tag in a written type is declared.
pub fn is_named(tags: &Names, t: &TypeName) -> bool
    ensures { result ≡ is_named tags.now (type_tree t.now) }
{
    match t {
        TypeName::Void | TypeName::Int(_) => true,
        TypeName::Struct(tag) => tags.find(tag.as_slice()).is_some(),
        TypeName::Ptr(to) => is_named(tags, to),
        TypeName::Array(of, _) => is_named(tags, of),
    }
}

/// Whether no array by value in a type has a length of 0.
pub fn has_elements(t: &Ty) -> bool
    ensures { result ≡ has_elements (ty_tree t.now) }
{
    match t {
        Ty::Void | Ty::Int(_) | Ty::Struct(_) | Ty::Ptr(_) => true,
        Ty::Array(of, count) => has_elements(of) & (*count != 0),
    }
}

/// Whether objects may have a written type, where `ty` is the type that it means: its tags are
/// declared, by value it holds no void and only structs that are complete, and no array in it has a
/// length of 0.
pub fn is_object(tags: &Names, declared: u32, t: &TypeName, ty: &Ty) -> bool
    requires { ty_tree ty.now ≡ ty_of tags.now (type_tree t.now) }
    ensures { result ≡ is_object tags.now declared (type_tree t.now) }
{
    is_named(tags, t) & is_complete(declared, ty) & has_elements(ty)
}

/// The category of the type that a written type means.
pub fn written_category(t: &TypeName) -> Category
    ensures { result ≡ written_category (type_tree t.now) }
{
    match t {
        TypeName::Void => Category::Nothing,
        TypeName::Int(i) => Category::Integer(*i),
        TypeName::Struct(_) => Category::Structure,
        TypeName::Ptr(_) => Category::Pointer,
        TypeName::Array(..) => Category::Array,
    }
}
