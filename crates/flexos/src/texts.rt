//! The texts of the commands that only write one.

ghost use Rattle.std.specs.Prelude.{◌≡◌};
ghost use Rattle.fx_cmd_base.specs.Ends.{ErrorStream};
ghost use Rattle.flexos.specs.Texts.{help_text, version_text, PutsText};

use fx_base::{Sink, put_all};
use fx_cmd_base::conclude;

/// The status of a text that `out` didn't take whole, and its line.
const WRITE_FAULT: u8 = 5;

const WRITE_FAULT_LINE: &str = "write fault\n";

/// The commands with their words, options and statuses.
#[tactic(auto, unfolding(crate::specs::Texts::help_text))]
pub fn help() -> &'static str
    ensures { result.now ≡ help_text }
{
    "FlexOS 0.1: the compartments of a program, kept apart as its build says.\n\
     \n\
     Words                      What is done                                  Status\n\
     exec CONF IMAGE [OPTIONS]  builds the image of CONF, writes it, runs it  0 3-6 8\n\
     run IMAGE [OPTIONS]        runs the image                                0 1 3-12\n\
     single CONF [--steps N]    runs CONF's sources, all in one compartment   0 3-12\n\
     place CONF                 writes where CONF's objects lie               0 3-6\n\
     build CONF IMAGE           writes the image of CONF's sources            0 3-6\n\
     show IMAGE                 writes what the image holds                   0 3-6\n\
     migrate OLD NEW            writes the image OLD under NEW, in version 2  0 3-6\n\
     help, --help, -h           writes this text                              0 5\n\
     --version                  writes the version                            0 5\n\
     \n\
     OPTIONS, in any order, each at most once\n\
     --steps N                  makes N turns at most, in place of 50000000\n\
     --schedule FILE            lets byte i of FILE name the vCPU of turn i\n\
     --unplug D N               unplugs device D, 1 to 15, behind N operations\n\
     \n\
     Status: 0 done, or a run ended by Exit. 1 an access was denied. 2 usage.\n\
     3 refused. 4 a file's fault. 5 a write fault. 6 out of memory. 7 a stack is full.\n\
     8 steps spent. 9 Divide, BadThread or ThreadsFull. 10 broken. 11 a device's fault.\n\
     12 a read fault.\n"
}

/// The version.
#[tactic(auto, unfolding(crate::specs::Texts::version_text))]
pub fn version() -> &'static str
    ensures { result.now ≡ version_text }
{
    "flexos 0.1\n"
}

/// Puts a text to `out`, and answers the status: 0, or 5 where `out` failed in it. The line of that
/// goes to `err`.
pub fn put_text<O: Sink, E: Sink>(text: &str, out: &mut O, err: &mut E) -> u8
    ensures { let stream : ErrorStream = record {
      told = E.taken err.old;
      printed = E.taken err.new;
      quiet = E.faults err.old;
      loud = E.faults err.new;
    } in
        PutsText text.now (O.taken out.old) (O.taken out.new) (O.faults out.old) (O.faults out.new)
        result stream }
{
    match put_all(out, text.as_bytes()) {
        Ok(()) => 0,
        Err(_) => conclude(err, WRITE_FAULT, WRITE_FAULT_LINE.as_bytes()),
    }
}
