//! The operations of a run, in order.

ghost use Rattle.std.specs.Prelude.{◌≡◌, [], ◌∷◌, ◌++◌, OnOk, OnErr, length, IsTrue, ◌↔◌};

use crate::DeviceOp;
use std::alloc::{AllocError, Global};
use std::marker::Model;

/// Operations of devices, in the order in which they were made.
#[derive(Drop)]
pub struct Transcript {
    ops: Vec<DeviceOp>,
}

impl Model for Transcript {
    ghost use Rattle.std.specs.Prelude.{List};
    ghost use Rattle.fx_base.specs.declared.device_op.DeviceOp.{DeviceOp};

    ghost Value = { List DeviceOp };

    ghost view = { λ a. a.ops.items };
}

impl Transcript {
    /// A transcript of no operation. It takes no memory.
    pub fn new(alloc: Global) -> Transcript
        ensures { result ≡ [] }
    {
        Transcript {
            ops: Vec::new(alloc),
        }
    }

    /// The transcript of these operations. It takes no memory.
    pub fn from_vec(ops: Vec<DeviceOp>) -> Transcript
        ensures { result ≡ ops.items }
    {
        Transcript { ops }
    }

    /// The operations. It takes no memory.
    pub fn into_vec(self) -> Vec<DeviceOp>
        ensures { result.items ≡ self }
    {
        let Transcript { ops } = self;
        ops
    }

    /// The operations so far.
    pub fn as_slice(&self) -> &[DeviceOp]
        ensures { result.now ≡ self.now }
    {
        self.ops.as_slice()
    }

    /// How many operations there are.
    pub fn len(&self) -> usize
        ensures { result ≡ length self.now }
    {
        self.ops.len()
    }

    /// Whether there is no operation.
    pub fn is_empty(&self) -> bool
        ensures { IsTrue result ↔ (self.now ≡ []) }
    {
        self.ops.is_empty()
    }

    /// Adds an operation at the end.
    pub fn push(&mut self, op: DeviceOp) -> Result<(), AllocError>
        ensures ok { OnOk result (self.new ≡ self.old ++ op ∷ []) }
        ensures err { OnErr result (self.new ≡ self.old) }
    {
        self.ops.push(op)?;
        Ok(())
    }
}
