//! The files that a run reads: the image and the schedule.

ghost use Rattle.std.specs.Prelude.{◌≤◌, IfOk, IfErr, MatchResult, option_map};
ghost use Rattle.fx_base.specs.Told.{Told};
ghost use Rattle.fx_base.specs.Files.{SameFiles};
ghost use Rattle.fx_image.specs.ImageBytes.{ImageBytes};
ghost use Rattle.fx_cmd_load.specs.Reading.{LeavesCount};
ghost use Rattle.fx_cmd_run.specs.Causes.{HasImage, ImageCause, HasSchedule, ScheduleCause, UnbegunLeaves, IsRefused};

use fx_base::{FileError, Files};
use fx_image::{Image, ImageError, read};
use std::alloc::Global;

/// One of the files that a run reads.
#[derive(Clone, Copy, Debug, PartialEq, Eq)]
pub enum Which {
    Image,
    Schedule,
}

/// Why a run isn't begun.
#[derive(Clone, Copy, Debug, PartialEq, Eq)]
pub enum Unbegun {
    /// A file couldn't be read.
    Unread { which: Which, error: FileError },
    /// The image's bytes are refused.
    Refused(ImageError),
    OutOfMemory,
}

/// The most bytes of a file.
const FILE_LIMIT: u64 = 16_777_216;

/// The image that some bytes spell.
fn image_of(alloc: Global, bytes: &[u8]) -> Result<Image, Unbegun>
    ensures image { IfOk result (λ i. ImageBytes i bytes.now) }
    ensures cause { IfErr result (IsRefused bytes.now) }
{
    match read(alloc, bytes) {
        Ok(image) => Ok(image),
        Err(ImageError::OutOfMemory) => Err(Unbegun::OutOfMemory),
        Err(error) => Err(Unbegun::Refused(error)),
    }
}

/// Reads the image.
pub fn take_image<F: Files>(alloc: Global, files: &mut F, name: &str) -> Result<Image, Unbegun>
    ensures keeps { Told SameFiles (F.held files.old) (F.held files.new) }
    ensures later { F.faults files.old ≤ F.faults files.new }
    ensures image { IfOk result (HasImage (F.held files.old) name.now) }
    ensures counted { MatchResult result (λ _. LeavesCount (F.held files.old) (F.faults files.old)
        (F.faults files.new))
        (UnbegunLeaves (F.held files.old) (F.faults files.old) (F.faults files.new)) }
    ensures cause { IfErr result (ImageCause name.now (F.held files.old) (F.faults files.old)
        (F.faults files.new)) }
{
    match files.read(alloc, name, FILE_LIMIT) {
        Ok(bytes) => image_of(alloc, &bytes),
        Err(FileError::OutOfMemory) => Err(Unbegun::OutOfMemory),
        Err(error) => Err(Unbegun::Unread {
            which: Which::Image,
            error,
        }),
    }
}

/// Reads the schedule, where one is named.
pub fn take_schedule<F: Files>(
    alloc: Global,
    files: &mut F,
    name: Option<&str>,
) -> Result<Vec<u8>, Unbegun>
    ensures keeps { Told SameFiles (F.held files.old) (F.held files.new) }
    ensures later { F.faults files.old ≤ F.faults files.new }
    ensures counted { MatchResult result (λ _. LeavesCount (F.held files.old) (F.faults files.old)
        (F.faults files.new))
        (UnbegunLeaves (F.held files.old) (F.faults files.old) (F.faults files.new)) }
    ensures schedule { let named = option_map (λ word. word.now) name.entry in
        IfOk result (λ v. HasSchedule (F.held files.old) named v.items) }
    ensures cause { let named = option_map (λ word. word.now) name.entry in
        IfErr result (ScheduleCause named (F.held files.old) (F.faults files.old)
        (F.faults files.new)) }
{
    let name = match name {
        Some(name) => name,
        None => return Ok(Vec::new(alloc)),
    };
    match files.read(alloc, name, FILE_LIMIT) {
        Ok(bytes) => Ok(bytes),
        Err(FileError::OutOfMemory) => Err(Unbegun::OutOfMemory),
        Err(error) => Err(Unbegun::Unread {
            which: Which::Schedule,
            error,
        }),
    }
}
