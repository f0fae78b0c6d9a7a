//! Objects.

ghost use Rattle.std.specs.Prelude.{◌≡◌, ◌+◌, ◌<◌, ◌≤◌, ◌^◌, ◌-◌, [], length, take, drop, slice_set, slice_index_or};
ghost use Rattle.fx_c_mean_blocks.specs.declared.value.Cell.TheVariants.{Byte};
ghost use Rattle.fx_c_mean_blocks.specs.Blocks.{set_cells, cells_of, cells_at};

use crate::cells::set_value;
use crate::value::{Cell, Value};
use std::marker::Model;

/// A declared object of the program. A local names its function and its place among the function's
/// locals, parameters first; each call has objects of its own for them.
#[derive(Clone, Copy, Debug, PartialEq, Eq)]
pub enum Place {
    Global(u32),
    Literal(u32),
    Local { function: u32, local: u16 },
}

/// The cells of an object.
#[derive(Debug, Drop)]
pub struct Cells {
    cells: Vec<Cell>,
}

impl Model for Cells {
    ghost use Rattle.std.specs.Prelude.{List};
    ghost use Rattle.fx_c_mean_blocks.specs.declared.value.Cell.{Cell};

    ghost Value = { List Cell };

    ghost view = { λ s. s.cells.items };
}

impl Cells {
    /// These cells. It takes no memory.
    pub fn from_vec(cells: Vec<Cell>) -> Cells
        ensures { result ≡ cells.items }
    {
        Cells { cells }
    }

    /// The cells.
    pub fn as_slice(&self) -> &[Cell]
        ensures { result.now ≡ self.now }
    {
        self.cells.as_slice()
    }

    /// Drops the cells, and gives back the memory that they took.
    pub fn clear(&mut self)
        ensures { self.new ≡ [] }
    {
        self.cells.clear();
        self.cells.shrink_to_fit();
    }

    /// Sets a cell, where there is one at the place.
    pub fn set(&mut self, at: usize, c: Cell)
        ensures { self.new ≡ slice_set self.old at c }
    {
        if at < self.cells.len() {
            self.cells[at] = c;
        }
    }

    /// Sets cells one after the other, from a place on, to those that hold a value in so many bytes.
    pub fn set_value(&mut self, at: usize, n: u32, v: Value)
        requires room { at + n < 2 ^ 64 }
        requires small { n ≤ 8 }
        ensures { self.new ≡ set_cells self.old at (cells_of n v) }
    {
        set_value(&mut self.cells, at, n, v);
    }
}

/// An object: `size` is its number of bytes, which it keeps when it dies. The cells of a dead object
/// are gone.
#[derive(Debug, Drop)]
pub struct Object {
    pub place: Place,
    pub size: u32,
    pub live: bool,
    pub cells: Cells,
}

impl Object {
    /// The cell at an offset; a zero byte where there is none.
    pub fn cell(&self, offset: u32) -> Cell
        ensures { result ≡ slice_index_or self.now.cells offset (Byte 0) }
    {
        match self.cells.as_slice().get(offset as usize) {
            Some(c) => *c,
            None => Cell::Byte(0),
        }
    }

    /// n cells from an offset on, or those of them that there are.
    pub fn cells(&self, offset: u32, n: u32) -> &[Cell]
        ensures value { result.now ≡ cells_at self.now offset n }
        ensures short { length result.now ≤ n }
    {
        let cells = self.cells.as_slice();
        let from = cells.len().min(offset as usize);
        let rest = &cells[from..];
        &rest[..rest.len().min(n as usize)]
    }
}
