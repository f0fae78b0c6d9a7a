//! The pairs of readers and writers that have a section, in their order.

ghost use Rattle.std.specs.Prelude.{◌≡◌, ◌<◌, ◌≤◌, IfOk, OnOk, length, map};
ghost use Rattle.fx_sections.specs.Placement.{program_pairs};
ghost use Rattle.fx_sections.specs.Pairs.{add_pair, private_pair, common_pair, private_pairs, pairs_of, section_of, is_keyed};

use fx_config::{Config, Mechanism};
use fx_grants::sets::{all_of, only};
use fx_grants::{Grants, Pair};
use indexmap::IndexSet;
use std::alloc::{AllocError, Global};

fn private_pair(c: u8) -> Pair
    requires { c < 16 }
    ensures { result ≡ private_pair c }
{
    let set = only(c);
    Pair {
        readers: set,
        writers: set,
    }
}

fn common_pair(n: u8) -> Pair
    requires { n ≤ 16 }
    ensures { result ≡ common_pair n }
{
    let set = all_of(n as usize);
    Pair {
        readers: set,
        writers: set,
    }
}

// One more pair, where it is not among them.
fn add(pairs: &mut IndexSet<Pair>, pair: Pair) -> Result<(), AllocError>
    ensures { OnOk result (pairs.new.keys ≡ add_pair pairs.old.keys pair) }
{
    pairs.insert(pair)?;
    Ok(())
}

fn private_pairs(alloc: Global, n: u8) -> Result<IndexSet<Pair>, AllocError>
    requires { n ≤ 16 }
    ensures { IfOk result (λ s. s.keys ≡ private_pairs n) }
{
    let mut pairs = IndexSet::new(alloc);
    for c in 0..n {
        add(&mut pairs, private_pair(c))?;
    }
    Ok(pairs)
}

/// The pairs of the sections of n compartments and globals with these pairs.
pub fn section_pairs(alloc: Global, n: u8, globals: &[Pair]) -> Result<IndexSet<Pair>, AllocError>
    requires { n ≤ 16 }
    ensures { IfOk result (λ s. s.keys ≡ pairs_of n globals.now) }
{
    let mut pairs = private_pairs(alloc, n)?;
    add(&mut pairs, common_pair(n))?;
    for pair in globals {
        add(&mut pairs, *pair)?;
    }
    Ok(pairs)
}

/// The number of the section of a pair.
pub fn section_of(pairs: &IndexSet<Pair>, pair: Pair) -> usize
    ensures { result ≡ section_of pairs.now.keys pair }
{
    pairs.get_index_of(&pair).unwrap_or(0)
}

// The numbers of the sections of pairs.
fn sections_among(
    alloc: Global,
    pairs: &IndexSet<Pair>,
    of: &[Pair],
) -> Result<Vec<usize>, AllocError>
    ensures { IfOk result (λ v. v.items ≡ map (section_of pairs.now.keys) of.now) }
{
    let mut found = Vec::new(alloc);
    for pair in of {
        found.push(section_of(pairs, *pair))?;
    }
    Ok(found)
}

/// The number of the section of each global.
pub fn sections_of_globals(alloc: Global, g: &Grants, c: &Config) -> Result<Vec<usize>, AllocError>
    requires { length c.now.compartments ≤ 16 }
    ensures { IfOk result (λ v. v.items ≡ map (section_of (program_pairs g.now c.now)) g.now.globals) }
{
    let count = c.compartments.as_slice().len();
    let pairs = section_pairs(alloc, count as u8, g.globals.as_slice())?;
    let found = sections_among(alloc, &pairs, g.globals.as_slice())?;
    Ok(found)
}

/// Whether gates between compartments go by protection keys.
pub fn is_keyed(mechanism: Mechanism) -> bool
    ensures { result ≡ is_keyed mechanism }
{
    match mechanism {
        Mechanism::Light | Mechanism::Full => true,
        Mechanism::Call | Mechanism::Ept => false,
    }
}
