//! The command, its line on the error stream, and its status.

ghost use Rattle.std.specs.Prelude.{◌≡◌, ◌≤◌, IfErr, IfOk};
ghost use Rattle.fx_base.specs.Told.{Told};
ghost use Rattle.fx_cmd_base.specs.Ends.{ErrorStream};
ghost use Rattle.fx_cmd_build.specs.Builds.{BuildsImage, BuildCause, Reports, Does};

use crate::building::image_of;
use crate::failure::BuildFailure;
use crate::loading::load_plain;
use crate::writing::write_image;
use fx_base::{Files, Sink};
use fx_cmd_base::{conclude, report_out_of_memory};
use fx_image::Image;
use std::alloc::Global;

/// Builds the image of the configuration under a name, and writes it under another.
pub fn perform<F: Files>(
    alloc: Global,
    config: &str,
    image: &str,
    files: &mut F,
) -> Result<Image, BuildFailure>
    ensures builds { IfOk result (λ i.
        BuildsImage config.now image.now i (F.held files.old) (F.held files.new)) }
    // A refused build writes no file.
    ensures cause { IfErr result (BuildCause config.now image.now (F.held files.old)
        (F.held files.new) (F.faults files.old) (F.faults files.new)) }
    ensures later { F.faults files.old ≤ F.faults files.new }
{
    let program = load_plain(alloc, files, config)?;
    match image_of(alloc, &program.program, &program.config) {
        Ok(made) => match write_image(alloc, files, image, &made) {
            Ok(()) => Ok(made),
            Err(why) => Err(why),
        },
        Err(why) => Err(BuildFailure::Image(why)),
    }
}

/// Puts the line of a failure, and answers its status.
pub fn report_failure<E: Sink>(alloc: Global, err: &mut E, image: &str, why: &BuildFailure) -> u8
    ensures { let stream : ErrorStream = record {
      told = E.taken err.old;
      printed = E.taken err.new;
      quiet = E.faults err.old;
      loud = E.faults err.new;
    } in
        Reports image.now why.now result stream }
{
    match why.line(alloc, image) {
        Ok(line) => conclude(err, why.status(), line.as_bytes()),
        Err(_) => report_out_of_memory(err),
    }
}

/// Does what `build CONF IMAGE` says and answers its status: reads the configuration and its
/// sources, checks the program, grants, places and links it, and writes the image's spelling under
/// IMAGE. A failure's line goes to `err`, and a refused build writes no file.
///
/// The statuses: 0 done, which has no line; 3 refused, by the configuration, a source, a type rule,
/// the grants, the placement or the length of the code; 4 a file's fault; 5 `err` failed; 6 out of
/// memory.
pub fn build_command<F: Files, E: Sink>(
    alloc: Global,
    config: &str,
    image: &str,
    files: &mut F,
    err: &mut E,
) -> u8
    // What it came to: the image was built and written, with status 0, and the error stream took
    // nothing; or there is a cause, with its line and status.
    ensures does { let stream : ErrorStream = record {
      told = E.taken err.old;
      printed = E.taken err.new;
      quiet = E.faults err.old;
      loud = E.faults err.new;
    } in
        Does config.now image.now (F.held files.old) (F.held files.new) (F.faults files.old)
        (F.faults files.new) result stream }
{
    match perform(alloc, config, image, files) {
        Ok(_) => 0,
        Err(why) => report_failure(alloc, err, image, &why),
    }
}
