//! Types from tokens.

ghost use Rattle.std.specs.Prelude.{◌≡◌, ◌<◌, ◌≤◌, length, IfOk};
ghost use Rattle.fx_c_ast.specs.ParsedTrees.{IntegerType, type_tree};
ghost use Rattle.fx_c_parse.specs.Words.{rest_of};
ghost use Rattle.fx_c_parse.specs.Reading.{Gives};
ghost use Rattle.fx_c_parse.specs.Types.{nesting, integer_of, unsigned_base, base_of, stars_of, dims_of, dimension_of, pointer_type_of};

use crate::cursor::Cursor;
use crate::fault::Fault;
use fx_c_ast::operator::IntType;
use fx_c_ast::parsed::TypeName;
use fx_c_lex::{keyword, sign};
use std::alloc::Global;

/// How deep types, expressions and statements may nest.
#[tactic(auto, unfolding(crate::specs::Types::nesting))]
pub fn nesting() -> u32
    ensures { result ≡ nesting }
{
    64
}

/// The integer type of a keyword, signed or unsigned.
pub fn integer_of(unsigned: bool, keyword: u8) -> Option<IntType>
    ensures { result ≡ integer_of unsigned keyword }
{
    match (unsigned, keyword) {
        (false, keyword::CHAR) => Some(IntType::Char),
        (false, keyword::SHORT) => Some(IntType::Short),
        (false, keyword::INT) => Some(IntType::Int),
        (false, keyword::LONG) => Some(IntType::Long),
        (true, keyword::CHAR) => Some(IntType::Uchar),
        (true, keyword::SHORT) => Some(IntType::Ushort),
        (true, keyword::INT) => Some(IntType::Uint),
        (true, keyword::LONG) => Some(IntType::Ulong),
        _ => None,
    }
}

// The type behind `unsigned`, which alone is `unsigned int`.
fn unsigned_base(at: Cursor) -> (IntType, Cursor)
    ensures value { (IntegerType result.0, rest_of result.1) ≡ unsigned_base (rest_of at.entry) }
    ensures shorter { length (rest_of result.1) ≤ length (rest_of at.entry) }
{
    match at.keyword() {
        Some(keyword) => match integer_of(true, keyword) {
            Some(integer) => (integer, at.next()),
            None => (IntType::Uint, at),
        },
        None => (IntType::Uint, at),
    }
}

/// A type without stars and dimensions.
pub fn base(alloc: Global, at: Cursor) -> Result<(TypeName, Cursor), Fault>
    ensures tree { Gives (λ x. (type_tree x.0, rest_of x.1)) result (base_of (rest_of at.entry)) }
    ensures shorter { IfOk result (λ x. length (rest_of x.1) < length (rest_of at.entry)) }
{
    match at.keyword() {
        Some(keyword::VOID) => Ok((TypeName::Void, at.next())),
        Some(keyword::STRUCT) => {
            let tag = at.next();
            Ok((TypeName::Struct(tag.name(alloc)?), tag.next()))
        }
        Some(keyword::UNSIGNED) => {
            let (integer, rest) = unsigned_base(at.next());
            Ok((TypeName::Int(integer), rest))
        }
        Some(keyword) => match integer_of(false, keyword) {
            Some(integer) => Ok((TypeName::Int(integer), at.next())),
            None => Err(Fault::Syntax),
        },
        None => Err(Fault::Syntax),
    }
}

/// A pointer to a type for each star, with how many stars are still allowed.
pub fn stars(
    alloc: Global,
    left: u32,
    ty: TypeName,
    at: Cursor,
) -> Result<(TypeName, u32, Cursor), Fault>
    ensures tree { Gives (λ x. (type_tree x.0, x.1, rest_of x.2)) result (stars_of left (type_tree ty) (rest_of at.entry)) }
    ensures shorter { IfOk result (λ x. length (rest_of x.2) ≤ length (rest_of at.entry)) }
{
    if !at.has_sign(sign::STAR) {
        return Ok((ty, left, at));
    }
    if left == 0 {
        return Err(Fault::Syntax);
    }
    stars(
        alloc,
        left - 1,
        TypeName::Ptr(Box::new(alloc, ty)?),
        at.next(),
    )
}

/// An array of a type for each dimension; the first is the outermost.
pub fn dimensions(
    alloc: Global,
    left: u32,
    ty: TypeName,
    at: Cursor,
) -> Result<(TypeName, Cursor), Fault>
    ensures tree { Gives (λ x. (type_tree x.0, rest_of x.1)) result (dims_of left (type_tree ty) (rest_of at.entry)) }
    ensures shorter { IfOk result (λ x. length (rest_of x.1) ≤ length (rest_of at.entry)) }
{
    if !at.has_sign(sign::OPEN_BRACKET) {
        return Ok((ty, at));
    }
    if left == 0 {
        return Err(Fault::Syntax);
    }
    let (count, rest) = dimension(at.next())?;
    let (ty, rest) = dimensions(alloc, left - 1, ty, rest)?;
    Ok((TypeName::Array(Box::new(alloc, ty)?, count), rest))
}

// A number below 2^32 and `]`.
fn dimension(at: Cursor) -> Result<(u32, Cursor), Fault>
    ensures value { Gives (λ x. (x.0, rest_of x.1)) result (dimension_of (rest_of at.entry)) }
    ensures shorter { IfOk result (λ x. length (rest_of x.1) < length (rest_of at.entry)) }
{
    let count = at.number()?;
    let rest = at.next().after_sign(sign::CLOSE_BRACKET)?;
    if count < 0x1_0000_0000 {
        Ok((count as u32, rest))
    } else {
        Err(Fault::Syntax)
    }
}

/// A base and stars, with how many dimensions are still allowed.
pub fn pointer_type(alloc: Global, at: Cursor) -> Result<(TypeName, u32, Cursor), Fault>
    ensures tree { Gives (λ x. (type_tree x.0, x.1, rest_of x.2)) result (pointer_type_of (rest_of at.entry)) }
    ensures shorter { IfOk result (λ x. length (rest_of x.2) < length (rest_of at.entry)) }
{
    let (ty, rest) = base(alloc, at)?;
    stars(alloc, nesting(), ty, rest)
}
