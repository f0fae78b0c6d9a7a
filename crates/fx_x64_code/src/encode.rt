//! The encoder.

ghost use Rattle.std.specs.Prelude.{◌≡◌, ◌++◌, OnOk, OnErr, IsTrue};
ghost use Rattle.fx_x64_code.specs.Spelling.{spelling, has_row};

use crate::spell::spell;
use fx_x64_forms::inst::Inst;
use std::alloc::{AllocError, Global};

/// Appends the one spelling of an instruction, which is a row of the table: its widths and its
/// operation are those that its variant names. Where there is no memory, `out` is as it was.
pub fn encode(_alloc: Global, i: &Inst, out: &mut Vec<u8>) -> Result<(), AllocError>
    requires { IsTrue (has_row i.now) }
    ensures spelled { OnOk result (out.new.items ≡ out.old.items ++ spelling i.now) }
    ensures kept { OnErr result (out.new.items ≡ out.old.items) }
{
    out.extend_from_slice(spell(i).as_slice())
}
