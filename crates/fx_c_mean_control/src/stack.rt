//! A stack.

ghost use Rattle.std.specs.Prelude.{◌≡◌, ◌≢◌, ◌∷◌, [], OnOk, OnErr, MatchOption, option_copied, slice_get, drop, length};

use std::alloc::{AllocError, Global};
use std::marker::Model;

/// A stack, which contracts see as the list of its items, the top first.
#[derive(Drop)]
pub struct Stack<T> {
    items: Vec<T>,
}

impl<T> Model for Stack<T> {
    ghost use Rattle.std.specs.Prelude.{List, reverse};
    ghost use Rattle.std.specs.Coded.{coded_list};

    ghost Value = { List T };

    ghost coded = { coded_list T.code };

    ghost view = { λ s. reverse s.items.items };
}

impl<T> Stack<T> {
    /// A stack of no items. It takes no memory.
    pub fn new(alloc: Global) -> Stack<T>
        ensures { result ≡ [] }
    {
        Stack {
            items: Vec::new(alloc),
        }
    }
}

impl<T: Drop> Stack<T> {
    /// Puts an item on top.
    pub fn push(&mut self, item: T) -> Result<(), AllocError>
        ensures ok { OnOk result (self.new ≡ item ∷ self.old) }
        ensures err { OnErr result (self.new ≡ self.old) }
    {
        self.items.push(item)?;
        Ok(())
    }

    /// Takes the top item.
    pub fn pop(&mut self) -> Option<T>
        ensures { MatchOption result ((self.old ≡ []) × (self.new ≡ [])) (λ x. self.old ≡ x ∷ self.new) }
    {
        self.items.pop()
    }
}

impl<T: Copy> Stack<T> {
    /// How many items there are.
    pub fn len(&self) -> usize
        ensures { result ≡ length self.now }
    {
        self.items.len()
    }

    /// The item at a place, from the top on.
    pub fn at(&self, place: usize) -> Option<T>
        ensures { result ≡ slice_get self.now place }
    {
        if place < self.items.len() {
            Some(self.items[self.items.len() - 1 - place])
        } else {
            None
        }
    }

    /// Puts another item in place of the top one.
    pub fn set_top(&mut self, item: T)
        requires { self.old ≢ [] }
        ensures { self.new ≡ item ∷ drop 1 self.old }
    {
        let _ = self.items.pop();
        self.items.push(item).unwrap();
    }

    /// Drops the top item.
    pub fn drop_top(&mut self)
        ensures { self.new ≡ drop 1 self.old }
    {
        let _ = self.items.pop();
    }

    /// The top item.
    pub fn top(&self) -> Option<T>
        ensures { result ≡ slice_get self.now 0 }
    {
        self.items.last().copied()
    }
}
