//! A table of names, each with a number.

ghost use Rattle.std.specs.Prelude.{◌≡◌, ℕ, [], ◌∷◌, ◌++◌, length, None, OnOk};
ghost use Rattle.fx_c_types_heads.specs.Names.{found};

use indexmap::IndexMap;
use std::alloc::{AllocError, Global};
use std::marker::Model;

/// Names in the order in which they were declared, each with a number.
#[derive(Drop)]
pub struct Names {
    map: IndexMap<Vec<u8>, u32>,
}

impl Model for Names {
    ghost use Rattle.std.specs.Prelude.{List, ℕ};
    ghost use Rattle.fx_c_types_heads.specs.Names.{named};

    ghost Value = { List (List ℕ × ℕ) };

    ghost view = { λ n. named n.map.entries };
}

impl Names {
    /// A table of no names.
    pub fn new(alloc: Global) -> Names
        ensures { result ≡ [] }
    {
        Names {
            map: IndexMap::new(alloc),
        }
    }

    /// The number of a name, if it is declared.
    pub fn find(&self, name: &[u8]) -> Option<u32>
        ensures { result ≡ found name.now self.now }
    {
        self.map.get(name).copied()
    }

    /// How many names there are.
    pub fn len(&self) -> usize
        ensures { result ≡ length self.now }
    {
        self.map.len()
    }

    /// Declares a name that is not declared yet.
    pub fn declare(&mut self, alloc: Global, name: &[u8], number: u32) -> Result<(), AllocError>
        requires { found name.now self.old ≡ None }
        ensures { OnOk result (self.new ≡ self.old ++ (name.now, number) ∷ []) }
    {
        let key = Vec::from_slice(alloc, name)?;
        self.map.insert(key, number)?;
        Ok(())
    }
}
