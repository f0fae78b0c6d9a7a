//! The command: reads the image, and puts its text.

ghost use Rattle.std.specs.Prelude.{◌≡◌, ◌≤◌, ℕ, OnOk, IfOk, IfErr, MatchResult, Result};
ghost use Rattle.fx_base.specs.Faults.{Rose};
ghost use Rattle.fx_base.specs.Told.{Told};
ghost use Rattle.fx_base.specs.Files.{SameFiles};
ghost use Rattle.fx_image.specs.Rules.{IsImage};
ghost use Rattle.fx_cmd_base.specs.Streams.{Streams, Gained, TookNothing};
ghost use Rattle.fx_cmd_base.specs.Ends.{ErrorStream};
ghost use Rattle.fx_cmd_show.specs.Text.{text_of};
ghost use Rattle.fx_cmd_show.specs.Shows.{Comes, IsUnput, Reports, ShowsImage};
ghost use Rattle.fx_cmd_show.specs.declared.failure.Unshown.{Unshown as Failure};

use crate::failure::Unshown;
use crate::show::image_text;
use fx_base::{Files, Sink, put_all};
use fx_cmd_base::{conclude, report_out_of_memory};
use fx_cmd_run::load::take_image;
use fx_image::Image;
use std::alloc::Global;

// Puts the text of an image.
fn put_text<O: Sink>(alloc: Global, image: &Image, out: &mut O) -> Result<(), Unshown>
    requires { IsImage image.now }
    ensures put { OnOk result (Told (Gained (text_of image.now)) (O.taken out.old)
        (O.taken out.new)) }
    ensures cause { IfErr result (IsUnput image.now (O.taken out.old) (O.taken out.new)
        (O.faults out.old) (O.faults out.new)) }
{
    let Ok(text) = image_text(alloc, image) else {
        return Err(Unshown::OutOfMemory);
    };
    match put_all(out, &text) {
        Ok(()) => Ok(()),
        Err(_) => Err(Unshown::WriteFault),
    }
}

/// Reads the image under a name, and puts its text.
fn perform<F: Files, O: Sink>(
    alloc: Global,
    name: &str,
    files: &mut F,
    out: &mut O,
) -> Result<(), Unshown>
    ensures keeps { Told SameFiles (F.held files.old) (F.held files.new) }
    ensures comes { Comes name.now (F.held files.old) (F.faults files.old) (F.faults files.new)
        (O.taken out.old) (O.taken out.new) (O.faults out.old) (O.faults out.new) result }
{
    match take_image(alloc, files, name) {
        Ok(image) => put_text(alloc, &image, out),
        Err(why) => Err(Unshown::NoImage(why)),
    }
}

// Puts the line of a failure, and answers its status.
fn report<E: Sink>(alloc: Global, err: &mut E, name: &str, came: Result<(), Unshown>) -> u8
    ensures { let stream : ErrorStream = record {
      told = E.taken err.old;
      printed = E.taken err.new;
      quiet = E.faults err.old;
      loud = E.faults err.new;
    } in
        Reports name.now came result stream }
{
    match came {
        Ok(()) => 0,
        Err(why) => match why.line(alloc, name) {
            Ok(line) => conclude(err, why.status(), line.as_bytes()),
            Err(_) => report_out_of_memory(err),
        },
    }
}

/// Does what `show IMAGE` says and answers its status: reads the image and puts its text to `out`.
/// A failure's line goes to `err`.
///
/// The statuses: 0 done, which has no line; 3 the image is refused; 4 a file's fault; 5 `out` or
/// `err` failed; 6 out of memory.
pub fn show_command<F: Files, O: Sink, E: Sink>(
    alloc: Global,
    name: &str,
    files: &mut F,
    out: &mut O,
    err: &mut E,
) -> u8
    // No file is changed.
    ensures keeps { Told SameFiles (F.held files.old) (F.held files.new) }
    // Status 0: the output gained exactly the text of the image, and the error stream nothing.
    ensures done { result ≡ 0 →
        ShowsImage name.now (F.held files.old) (O.taken out.old) (O.taken out.new)
        × Told TookNothing (E.taken err.old) (E.taken err.new) }
    // What it came to, each answer with its cause, and the line and status of that.
    ensures comes { let stream : ErrorStream = record {
      told = E.taken err.old;
      printed = E.taken err.new;
      quiet = E.faults err.old;
      loud = E.faults err.new;
    } in
        (came : Result (Unit {0}) Failure)
        × Comes name.now (F.held files.old) (F.faults files.old) (F.faults files.new)
        (O.taken out.old) (O.taken out.new) (O.faults out.old) (O.faults out.new) came
        × Reports name.now came result stream }
{
    let came = perform(alloc, name, files, out);
    report(alloc, err, name, came)
}
