//! Copies of what a parsed tree holds.

ghost use Rattle.std.specs.Prelude.{◌≡◌, Ok};
ghost use Rattle.fx_c_types_rules.specs.Checks.{Gives};

use fx_c_ast::parsed::{Bytes, Grant, Init, Name, Names};
use fx_c_ast::sequence::Sequence;
use fx_c_types_rules::fault::Fault;
use std::alloc::Global;

/// A copy of a name, or of a string's bytes.
pub fn bytes(alloc: Global, from: &Bytes) -> Result<Bytes, Fault>
    ensures { Gives (λ b. b) result (Ok from.now) }
{
    let bytes = Vec::from_slice(alloc, from.as_slice())?;
    Ok(Sequence::from_vec(bytes))
}

/// A copy of a list of names.
fn names(alloc: Global, from: &Names) -> Result<Names, Fault>
    ensures { Gives (λ n. n) result (Ok from.now) }
{
    let mut all: Vec<Name> = Vec::new(alloc);
    for name in from.as_slice() {
        all.push(bytes(alloc, name)?)?;
    }
    Ok(Sequence::from_vec(all))
}

/// A copy of a grant.
pub fn grant(alloc: Global, from: &Grant) -> Result<Grant, Fault>
    ensures { Gives (λ g. g) result (Ok from.now) }
{
    match from {
        Grant::Private => Ok(Grant::Private),
        Grant::Libraries(libraries) => Ok(Grant::Libraries(names(alloc, libraries)?)),
        Grant::All => Ok(Grant::All),
    }
}

/// A copy of an initial value.
pub fn init(alloc: Global, from: &Init) -> Result<Init, Fault>
    ensures { Gives (λ i. i) result (Ok from.now) }
{
    match from {
        Init::Zero => Ok(Init::Zero),
        Init::Number(number) => Ok(Init::Number(*number)),
        Init::Text(text) => Ok(Init::Text(bytes(alloc, text)?)),
    }
}
