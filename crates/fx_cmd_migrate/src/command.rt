//! The command, its line on the error stream, and its status.

ghost use Rattle.std.specs.Prelude.{◌≡◌, Result};
ghost use Rattle.fx_base.specs.Told.{Told};
ghost use Rattle.fx_cmd_base.specs.Ends.{ErrorStream};
ghost use Rattle.fx_cmd_base.specs.Streams.{TookNothing};
ghost use Rattle.fx_cmd_migrate.specs.Migrates.{MigratesImage, Comes, Reports};
ghost use Rattle.fx_cmd_migrate.specs.declared.failure.Unmigrated.{Unmigrated as Failure};

use crate::failure::Unmigrated;
use crate::rewriting::write_current;
use fx_base::{Files, Sink};
use fx_cmd_base::{conclude, report_out_of_memory};
use fx_cmd_run::load::take_image;
use std::alloc::Global;

/// Reads the image under the old name, and writes it under the new one.
fn perform<F: Files>(alloc: Global, old: &str, new: &str, files: &mut F) -> Result<(), Unmigrated>
    ensures { Comes old.now new.now (F.held files.old) (F.held files.new)
        (F.faults files.old) (F.faults files.new) result }
{
    match take_image(alloc, files, old) {
        Ok(image) => write_current(alloc, files, new, &image),
        Err(why) => Err(Unmigrated::NoImage(why)),
    }
}

/// Puts the line of a failure, and answers its status.
fn report<E: Sink>(
    alloc: Global,
    err: &mut E,
    old: &str,
    new: &str,
    came: Result<(), Unmigrated>,
) -> u8
    ensures { let stream : ErrorStream = record {
      told = E.taken err.old;
      printed = E.taken err.new;
      quiet = E.faults err.old;
      loud = E.faults err.new;
    } in
        Reports old.now new.now came result stream }
{
    match came {
        Ok(()) => 0,
        Err(why) => match why.line(alloc, old, new) {
            Ok(line) => conclude(err, why.status(), line.as_bytes()),
            Err(_) => report_out_of_memory(err),
        },
    }
}

/// Does what `migrate OLD NEW` says and answers its status: reads the image OLD, of at most
/// 16,777,216 bytes and of version 1 or 2, and writes it under NEW in version 2, with nothing else
/// changed. A failure's line goes to `err`.
///
/// The statuses: 0 done, which has no line; 3 the image is refused; 4 a file's fault; 5 `err`
/// failed; 6 out of memory. Where there is no image, no file is written.
pub fn migrate_command<F: Files, E: Sink>(
    alloc: Global,
    old: &str,
    new: &str,
    files: &mut F,
    err: &mut E,
) -> u8
    // Status 0: the new file holds the image of the old one in version 2, which runs as the old one,
    // every other file is as it was, and the error stream took nothing.
    ensures done { result ≡ 0 →
        MigratesImage old.now new.now (F.held files.old) (F.held files.new)
        × Told TookNothing (E.taken err.old) (E.taken err.new) }
    // What it came to, each answer with its cause, and the line and status of that.
    ensures comes { let stream : ErrorStream = record {
      told = E.taken err.old;
      printed = E.taken err.new;
      quiet = E.faults err.old;
      loud = E.faults err.new;
    } in
        (came : Result (Unit {0}) Failure)
        × Comes old.now new.now (F.held files.old) (F.held files.new)
        (F.faults files.old) (F.faults files.new) came
        × Reports old.now new.now came result stream }
{
    let came = perform(alloc, old, new, files);
    report(alloc, err, old, new, came)
}
