//! Address spaces: which entry each page has.

ghost use Rattle.std.specs.Prelude.{ℕ};
ghost use Rattle.std.specs.Ordering.{nat_cmp};
ghost use Rattle.std.specs.BTreeMap.{get};
ghost use Rattle.std.proofs.Props.{props};
ghost use Rattle.fx_vm_pages.specs.Access.{HasKey};

use crate::entry::Entry;
use std::alloc::{AllocFailed, Global};
use std::collections::BTreeMap;

/// Why a page wasn't mapped.
#[derive(Clone, Copy, Debug, PartialEq, Eq)]
pub enum MapError {
    /// The page has an entry already.
    Taken,
    OutOfMemory,
}

/// An address space: the entries of its pages, by page number. A page number is an address divided
/// by 4,096; any number of 64 bits may have an entry.
#[derive(Drop)]
pub struct Space {
    pages: BTreeMap<u64, Entry>,
    ghost keyed: { (page : ℕ) → HasKey (get nat_cmp pages page) } by { Prim.hlevel props },
}

impl Space {
    ghost use Rattle.std.specs.Prelude.{◌≡◌, ◌<◌, None};
    ghost use Rattle.fx_vm_pages.specs.Space.{entry_of, Maps};

    /// An address space without entries.
    pub fn new(alloc: Global) -> Space
        ensures empty { (page : ℕ) → entry_of result page ≡ None }
    {
        Space {
            pages: BTreeMap::new(alloc),
        }
    }

    /// Gives a page its entry, whose key is from 0 to 15. `Taken` comes exactly where the page has an
    /// entry. After a refusal every page has the entry that it had.
    pub fn map(&mut self, page: u64, e: Entry) -> Result<(), MapError>
        requires key { e.key < 16 }
        ensures maps { Maps self.old page e result self.new }
    {
        if self.pages.contains_key(&page) {
            return Err(MapError::Taken);
        }
        match self.pages.insert(page, e) {
            Ok(_) => Ok(()),
            Err(_) => Err(MapError::OutOfMemory),
        }
    }

    /// The entry of a page, None exactly where it has none.
    pub fn entry(&self, page: u64) -> Option<Entry>
        ensures value { result ≡ entry_of self.now page }
        ensures keyed { HasKey result }
    {
        self.pages.get(&page).copied()
    }
}
