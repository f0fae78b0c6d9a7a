//! A store of words in memory.

ghost use Rattle.std.specs.Prelude.{◌≡◌, ◌∷◌, IfOk, replicate};
ghost use Rattle.fx_device.specs.Rules.{held};
ghost use Rattle.fx_device.specs.Stock.{loads_always, stores_always, word_value, word_kept, word_stored};

use crate::device::{Device, DeviceFailed};
use std::alloc::{AllocError, Global};
use std::marker::Model;

/// Words in memory: register 0 is a position, and register 1 the word there.
///
/// Past the end a load gives 0 and a store does nothing. Every other register gives 0 and takes no value.
#[derive(Drop)]
pub struct BlockStore {
    position: u64,
    words: Vec<u64>,
}

impl Model for BlockStore {
    ghost use Rattle.std.specs.Prelude.{ℕ, List, ◌∷◌};

    ghost Value = { List ℕ };

    ghost view = { λ s. s.position ∷ s.words.items };
}

impl BlockStore {
    /// A store of that many words, each 0, at position 0.
    pub fn new(alloc: Global, words: u32) -> Result<BlockStore, AllocError>
        ensures { IfOk result (λ s. s ≡ 0 ∷ replicate words 0) }
    {
        let words = vec![in alloc; 0u64; words as usize]?;
        Ok(BlockStore { position: 0, words })
    }

    fn value(&self, reg: u16) -> u64
        ensures { result ≡ word_value self.now reg }
    {
        if reg == 0 {
            return self.position;
        }
        if reg == 1 && self.position < self.words.len() as u64 {
            return self.words[self.position as usize];
        }
        0
    }

    fn set(&mut self, reg: u16, v: u64)
        ensures { self.new ≡ word_stored self.old reg v }
    {
        if reg == 0 {
            self.position = v;
        } else if reg == 1 && self.position < self.words.len() as u64 {
            self.words[self.position as usize] = v;
        }
    }
}

impl Device for BlockStore {
    ghost meaning = { λ s. record { now = held s 0; loads = loads_always word_value word_kept; stores = stores_always word_stored } };

    fn load(&mut self, reg: u16) -> Result<u64, DeviceFailed> {
        Ok(self.value(reg))
    }

    fn store(&mut self, reg: u16, v: u64) -> Result<(), DeviceFailed> {
        self.set(reg, v);
        Ok(())
    }
}
