//! What kind of type an expression has.

use crate::fault::TypeKind;
use fx_c_ast::operator::IntType;

/// The categories of types that the rules tell apart.
#[derive(Clone, Copy, Debug, PartialEq, Eq)]
pub enum Category {
    Nothing,
    Integer(IntType),
    Structure,
    Pointer,
    Array,
}

/// What stands left of `->`: a pointer to the struct with a number, or what is refused.
#[derive(Clone, Copy, Debug, PartialEq, Eq)]
pub enum ArrowTarget {
    Structure(u32),
    Refused(TypeKind),
}
