//! Memory.

ghost use Rattle.std.specs.Prelude.{◌-ℤ◌, ◌≤ℤ◌, ◌-◌, ◌≡◌, ◌+◌, ◌<◌, ◌≤◌, ◌^◌, ◌++◌, ◌∷◌, [], length, OnOk, OnErr, MatchResult, pos, slice_get, option_copied, take};
ghost use Rattle.fx_c_ast.specs.CheckedTrees.{ty_tree};
ghost use Rattle.fx_c_mean_blocks.specs.Blocks.{reached, byte_read, loaded, writable, written, cells_of, without, moved, is_comparable, object_in, offset_in, dead_at, declared_at};

use crate::block::{Object, Place};
use crate::cells::{value, width_of_type};
use crate::fault::Fault;
use crate::value::{Cell, Pointer, Value};
use fx_c_ast::checked::Ty;
use std::alloc::{AllocError, Global};
use std::marker::Model;

/// The objects, by their numbers.
#[derive(Drop)]
pub struct Memory {
    objects: Vec<Object>,
}

impl Model for Memory {
    ghost use Rattle.std.specs.Prelude.{List};
    ghost use Rattle.fx_c_mean_blocks.specs.declared.block.Object.{Object};

    ghost Value = { List Object };

    ghost view = { λ m. m.objects.items };
}

impl Memory {
    /// Memory of no object. It takes no memory.
    pub fn new(alloc: Global) -> Memory
        ensures { result ≡ [] }
    {
        Memory {
            objects: Vec::new(alloc),
        }
    }

    /// How many objects there are.
    pub fn len(&self) -> usize
        ensures { result ≡ length self.now }
    {
        self.objects.len()
    }

    /// Adds an object.
    pub fn push(&mut self, object: Object) -> Result<(), AllocError>
        ensures ok { OnOk result (self.new ≡ self.old ++ object ∷ []) }
        ensures err { OnErr result (self.new ≡ self.old) }
    {
        self.objects.push(object)?;
        Ok(())
    }

    /// Takes back the objects from a number on, as if they had not been added.
    pub fn truncate(&mut self, n: usize)
        ensures { self.new ≡ take n self.old }
    {
        self.objects.truncate(n);
    }

    fn at(&self, number: u32) -> Option<&Object>
        ensures { option_copied result ≡ slice_get self.now number }
    {
        self.objects.get(number as usize)
    }

    /// The declaration that an object is of; where there is no such object, that of the first global.
    pub fn declared_at(&self, number: u32) -> Place
        ensures { result ≡ declared_at self.now number }
    {
        match self.at(number) {
            Some(object) => object.place,
            None => Place::Global(0),
        }
    }

    /// The object of an access of n bytes through a value. Undefined through null, at a dead object and
    /// outside the object.
    fn reach(&self, v: Value, n: u32) -> Result<&Object, Fault>
        ensures { MatchResult result (λ o. reached self.now v n ≡ Ok o.now) (λ e. reached self.now v n ≡ Err e) }
    {
        let Value::Address(p) = v else {
            return Err(Fault::Undefined);
        };
        let Some(object) = self.at(p.object) else {
            return Err(Fault::Undefined);
        };
        if object.live && u64::from(p.offset) + u64::from(n) <= u64::from(object.size) {
            Ok(object)
        } else {
            Err(Fault::Undefined)
        }
    }

    /// The cell that a read of one byte reads, and what object it reads.
    pub fn read_byte(&self, v: Value) -> Result<(Cell, Place), Fault>
        ensures { result ≡ byte_read self.now v }
    {
        let object = self.reach(v, 1)?;
        Ok((object.cell(offset_of(v)), object.place))
    }

    /// The value that a load of a type reads, and what object it reads.
    pub fn load(&self, ty: &Ty, v: Value) -> Result<(Value, Place), Fault>
        ensures { result ≡ loaded self.now (ty_tree ty.now) v }
    {
        let n = width_of_type(ty);
        let object = self.reach(v, n)?;
        let w = value(ty, object.cells(offset_of(v), n))?;
        Ok((w, object.place))
    }

    /// What object a write of n bytes writes. A literal may not be written.
    pub fn writable(&self, to: Value, n: u32) -> Result<Place, Fault>
        ensures { result ≡ writable self.now to n }
    {
        let object = self.reach(to, n)?;
        match object.place {
            Place::Literal(_) => Err(Fault::Undefined),
            place => Ok(place),
        }
    }

    /// Writes a value in so many bytes, at most eight, where a value points to.
    pub fn store(&mut self, to: Value, n: u32, v: Value)
        requires { n ≤ 8 }
        ensures { self.new ≡ written self.old to (cells_of n v) }
    {
        if let Value::Address(p) = to {
            if (p.object as usize) < self.objects.len() {
                let object = &mut self.objects[p.object as usize];
                object.cells.set_value(p.offset as usize, n, v);
            }
        }
    }

    /// Writes one cell where a value points to.
    pub fn store_byte(&mut self, to: Value, cell: Cell)
        ensures { self.new ≡ written self.old to (cell ∷ []) }
    {
        if let Value::Address(p) = to {
            if (p.object as usize) < self.objects.len() {
                let object = &mut self.objects[p.object as usize];
                object.cells.set(p.offset as usize, cell);
            }
        }
    }

    /// Ends the life of an object.
    fn end_at(&mut self, at: usize)
        requires { at < length self.old }
        ensures { self.new ≡ dead_at self.old at (slice_get self.old at) }
    {
        let object = &mut self.objects[at];
        object.live = false;
        object.cells.clear();
    }

    /// Ends the life of n objects from a number on.
    pub fn kill(&mut self, from: usize, n: usize)
        ensures { self.new ≡ without self.old from n }
    {
        let mut at = from;
        let mut left = n;
        while left > 0 && at < self.objects.len() {
            self.end_at(at);
            at += 1;
            left -= 1;
        }
    }

    /// A pointer so many bytes on. Undefined on null, before the object and past its end (C11 6.5.6).
    pub fn moved(&self, v: Value, by: i128) -> Result<Value, Fault>
        requires low { (pos 0 -ℤ pos (2 ^ 120)) ≤ℤ by }
        requires high { by ≤ℤ pos (2 ^ 120) }
        ensures { result ≡ moved self.now v by }
    {
        let Value::Address(p) = v else {
            return Err(Fault::Undefined);
        };
        let Some(object) = self.at(p.object) else {
            return Err(Fault::Undefined);
        };
        let at = i128::from(p.offset) + by;
        if at >= 0 && at <= i128::from(object.size) {
            Ok(Value::Address(Pointer {
                object: p.object,
                offset: at as u32,
            }))
        } else {
            Err(Fault::Undefined)
        }
    }

    /// Whether equality and conditions take a pointer: null, or one to a live object.
    pub fn is_comparable(&self, v: Value) -> bool
        ensures { result ≡ is_comparable self.now v }
    {
        match v {
            Value::Null => true,
            Value::Address(p) => match self.at(p.object) {
                Some(object) => object.live,
                None => false,
            },
            Value::Void | Value::Number(_) => false,
        }
    }
}

/// The number of the object that a value points to; 0 for other values.
#[inline]
pub fn object_of(v: Value) -> u32
    ensures { result ≡ object_in v }
{
    match v {
        Value::Address(p) => p.object,
        Value::Void | Value::Number(_) | Value::Null => 0,
    }
}

/// The offset of the place that a value points to; 0 for other values.
#[inline]
pub fn offset_of(v: Value) -> u32
    ensures { result ≡ offset_in v }
{
    match v {
        Value::Address(p) => p.offset,
        Value::Void | Value::Number(_) | Value::Null => 0,
    }
}
