//! How a command ends: its line on the error stream, and its status.

ghost use Rattle.std.specs.Prelude.{◌≡◌, codes};
ghost use Rattle.fx_cmd_base.specs.Ends.{ErrorStream, Ended};

use fx_base::{Sink, put_all};

/// The status of a write fault, and its line.
const WRITE_FAULT: u8 = 5;

const WRITE_FAULT_LINE: &str = "write fault\n";

/// The status of want of memory, and its line.
const OUT_OF_MEMORY: u8 = 6;

const OUT_OF_MEMORY_LINE: &str = "out of memory\n";

/// Puts the line, and answers the status. Where the line can't be put, it is a write fault, whose own line is
/// tried once.
pub fn conclude<E: Sink>(err: &mut E, status: u8, line: &[u8]) -> u8
    ensures { let stream : ErrorStream = record {
      told = E.taken err.old;
      printed = E.taken err.new;
      quiet = E.faults err.old;
      loud = E.faults err.new;
    } in
        Ended status line.now result stream }
{
    match put_all(err, line) {
        Ok(()) => status,
        Err(_) => {
            if status != WRITE_FAULT {
                let _ = put_all(err, WRITE_FAULT_LINE.as_bytes());
            }
            WRITE_FAULT
        }
    }
}

/// Puts the line of want of memory, and answers the status.
pub fn report_out_of_memory<E: Sink>(err: &mut E) -> u8
    ensures { let stream : ErrorStream = record {
      told = E.taken err.old;
      printed = E.taken err.new;
      quiet = E.faults err.old;
      loud = E.faults err.new;
    } in
        Ended 6 (codes "out of memory\n") result stream }
{
    conclude(err, OUT_OF_MEMORY, OUT_OF_MEMORY_LINE.as_bytes())
}
