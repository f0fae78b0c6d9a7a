//! Where the sections, globals and literals of a program lie.

ghost use Rattle.std.specs.Prelude.{◌≡◌, ◌≢◌, ◌+◌, ◌≤◌, true, length, Ok, Err, MatchResult};
ghost use Rattle.fx_sections.specs.Placement.{IsPlaceable, program_pairs, bytes_placed, placed};
ghost use Rattle.fx_sections.specs.Pairs.{is_keyed};
ghost use Rattle.fx_sections.specs.declared.placement.PlaceError.TheVariants.{OutOfMemory};

use crate::layout::{
    addresses, fill, global_sizes, initial_total, laid_out, literals, total_pages,
};
use crate::pairs::{is_keyed, section_pairs};
use fx_c_ast::checked::TProgram;
use fx_config::{Config, Sequence};
use fx_grants::{Grants, Pair};
use indexmap::IndexSet;
use std::alloc::{AllocError, Global};
use thiserror::Error;

/// A section: whole pages for the objects of one pair of readers and writers.
#[derive(Clone, Copy, Debug, PartialEq, Eq)]
pub struct PlacedSection {
    /// The compartments that may read it; bit c is compartment c.
    pub readers: u16,
    /// The compartments that may write it.
    pub writers: u16,
    /// Its protection key, 0 where gates do not go by keys.
    pub key: u8,
    /// Its first page; a page has 4,096 bytes.
    pub page: u32,
    /// How many pages it has. The page behind them is not mapped.
    pub pages: u32,
}

/// Sections in the order of their pages.
pub type PlacedSections = Sequence<PlacedSection>;

/// Addresses by the number of the object.
pub type Places = Sequence<u64>;

/// Where the sections, globals and literals of a program lie. The private section of compartment c,
/// which is section c, begins with the runtime's object of 4,096 bytes.
#[derive(Drop)]
pub struct Placement {
    pub sections: PlacedSections,
    pub globals: Places,
    pub literals: Places,
}

/// Why a program is refused for its number or size, in the order in which the kinds are tried.
#[derive(Clone, Copy, Debug, PartialEq, Eq, Error)]
pub enum PlaceError {
    /// Under protection keys so many pairs of readers and writers, more than 14.
    #[error("{0} pairs of readers and writers, and there are keys for 14")]
    TooManyKeys(u32),
    /// So many globals and literals, more than 32,000.
    #[error("{0} globals and literals, more than 32000")]
    TooManyObjects(u32),
    /// So many bytes in all sections, more than 67,108,864.
    #[error("{0} bytes of sections, more than 67108864")]
    DataTooLong(u64),
    /// So many bytes of literals and initial values, more than 8,388,608.
    #[error("{0} bytes of literals and initial values, more than 8388608")]
    InitialTooLong(u64),
    #[error("out of memory")]
    OutOfMemory,
}

impl From<AllocError> for PlaceError {
    ghost from_gives = { λ _ e. e ≡ OutOfMemory };

    fn from(_error: AllocError) -> PlaceError {
        PlaceError::OutOfMemory
    }
}

/// Where the sections, globals and literals of a program lie (this project's own layout).
pub fn place(alloc: Global, p: &TProgram, g: &Grants, c: &Config) -> Result<Placement, PlaceError>
    requires { IsPlaceable p.now g.now c.now }
    ensures { MatchResult result (λ at. placed p.now g.now c.now ≡ Ok at) (λ e. e ≢ OutOfMemory → placed p.now g.now c.now ≡ Err e) }
{
    let count = c.compartments.as_slice().len();
    let pairs = section_pairs(alloc, count as u8, g.globals.as_slice())?;
    if is_keyed(c.mechanism) & (pairs.len() > 14) {
        return Err(PlaceError::TooManyKeys(pairs.len() as u32));
    }
    let objects = p.globals.as_slice().len() + p.literals.as_slice().len();
    if objects > 32_000 {
        return Err(PlaceError::TooManyObjects(objects as u32));
    }
    within_limits(alloc, p, g, c, &pairs)
}

// The same for a number of pairs and objects that is within the limits.
fn within_limits(
    alloc: Global,
    p: &TProgram,
    g: &Grants,
    c: &Config,
    pairs: &IndexSet<Pair>,
) -> Result<Placement, PlaceError>
    requires program { IsPlaceable p.now g.now c.now }
    requires pairs { pairs.now.keys ≡ program_pairs g.now c.now }
    requires keys { is_keyed c.now.mechanism ≡ true → length pairs.now.keys ≤ 14 }
    requires objects { length p.now.globals + length p.now.literals ≤ 32000 }
    ensures { MatchResult result (λ at. bytes_placed p.now g.now c.now ≡ Ok at) (λ e. e ≢ OutOfMemory → bytes_placed p.now g.now c.now ≡ Err e) }
{
    let sizes = global_sizes(alloc, p, pairs, g.globals.as_slice())?;
    let filled = fill(alloc, c.compartments.as_slice().len(), pairs.len(), &sizes)?;
    let pages = total_pages(&filled.rooms);
    if pages > 16_384 {
        return Err(PlaceError::DataTooLong(4096 * pages));
    }
    let texts = literals(alloc, p.literals.as_slice())?;
    let initial = texts.bytes + initial_total(p);
    if initial > 8_388_608 {
        return Err(PlaceError::InitialTooLong(initial));
    }
    let sections = laid_out(alloc, c.mechanism, pairs.as_slice(), &filled.rooms)?;
    let globals = addresses(alloc, &sections, &sizes, &filled.offsets)?;
    Ok(Placement {
        sections: Sequence::new(sections),
        globals: Sequence::new(globals),
        literals: Sequence::new(texts.addresses),
    })
}
