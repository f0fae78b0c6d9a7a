//! The line on the error stream, and the status.

ghost use Rattle.std.specs.Prelude.{◌≡◌, Result};
ghost use Rattle.fx_base.specs.Told.{Told};
ghost use Rattle.fx_base.specs.Files.{SameFiles};
ghost use Rattle.fx_cmd_base.specs.Ends.{ErrorStream};
ghost use Rattle.fx_cmd_base.specs.Streams.{TookNothing};
ghost use Rattle.fx_cmd_place.specs.declared.failure.PlaceFailure.{PlaceFailure as Failure};
ghost use Rattle.fx_cmd_place.specs.Comes.{Comes, CameLeaves, PlacesProgram};
ghost use Rattle.fx_cmd_place.specs.Reports.{Reports};

use crate::command::perform;
use crate::failure::PlaceFailure;
use fx_base::{Files, Sink};
use fx_cmd_base::{conclude, report_out_of_memory};
use std::alloc::Global;

/// Puts the line of a failure, and answers its status.
fn report<E: Sink>(alloc: Global, err: &mut E, came: &Result<(), PlaceFailure>) -> u8
    ensures { let stream : ErrorStream = record {
      told = E.taken err.old;
      printed = E.taken err.new;
      quiet = E.faults err.old;
      loud = E.faults err.new;
    } in
        Reports came.now result stream }
{
    match came {
        Ok(()) => 0,
        Err(failure) => match failure.line(alloc) {
            Ok(line) => conclude(err, failure.status(), line.as_bytes()),
            Err(_) => report_out_of_memory(err),
        },
    }
}

/// Does what `place CONF` says and answers its status: reads the configuration and its sources, checks the
/// program, grants and places it, and puts a line for each object of its image to `out`. A failure's line
/// goes to `err`.
///
/// The statuses: 0 done, which has no line; 3 refused, by the configuration, a source, a type rule, the
/// grants or the placement; 4 a file's fault; 5 `out` or `err` failed; 6 out of memory.
pub fn place_command<F: Files, O: Sink, E: Sink>(
    alloc: Global,
    config: &str,
    files: &mut F,
    out: &mut O,
    err: &mut E,
) -> u8
    // No file is changed.
    ensures keeps { Told SameFiles (F.held files.old) (F.held files.new) }
    // Status 0: the output gained exactly the lines of the placement, and the error stream nothing.
    ensures done { result ≡ 0 →
        PlacesProgram config.now (F.held files.old) (O.taken out.old) (O.taken out.new)
        × Told TookNothing (E.taken err.old) (E.taken err.new) }
    // What it came to, each answer with its cause, and the line and status of that.
    ensures comes { let stream : ErrorStream = record {
      told = E.taken err.old;
      printed = E.taken err.new;
      quiet = E.faults err.old;
      loud = E.faults err.new;
    } in
        (came : Result (Unit {0}) Failure)
        × Comes config.now (F.held files.old) (F.faults files.old) (F.faults files.new)
        (O.taken out.old) (O.taken out.new) (O.faults out.old) (O.faults out.new) came
        × CameLeaves (F.held files.old) (F.faults files.old) (F.faults files.new) came
        × Reports came result stream }
{
    let came = perform(alloc, config, files, out);
    report(alloc, err, &came)
}
