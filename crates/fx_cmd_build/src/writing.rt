//! Writing an image.

ghost use Rattle.std.specs.Prelude.{◌≡◌, ◌≤◌, Some, OnOk, IfErr};
ghost use Rattle.fx_base.specs.Told.{Told};
ghost use Rattle.fx_base.specs.Files.{SameElsewhere};
ghost use Rattle.fx_image.specs.Rules.{IsImage};
ghost use Rattle.fx_image.specs.Spelling.{image_spelling};
ghost use Rattle.fx_cmd_build.specs.Builds.{WritingCause};

use crate::failure::BuildFailure;
use fx_base::{FileError, Files};
use fx_image::{Image, print};
use std::alloc::Global;

/// Writes the spelling of an image under a name.
pub fn write_image<F: Files>(
    alloc: Global,
    files: &mut F,
    name: &str,
    image: &Image,
) -> Result<(), BuildFailure>
    requires { IsImage image.now }
    ensures written { Told (λ old new. OnOk result (new name.now ≡ Some (image_spelling image.now)))
        (F.held files.old) (F.held files.new) }
    // Every other file is as it was, also after a fault.
    ensures others { Told (SameElsewhere name.now) (F.held files.old) (F.held files.new) }
    ensures later { F.faults files.old ≤ F.faults files.new }
    ensures cause { IfErr result (WritingCause (F.faults files.old) (F.faults files.new)) }
{
    let bytes = match print(alloc, image) {
        Ok(bytes) => bytes,
        Err(_) => return Err(BuildFailure::OutOfMemory),
    };
    match files.write(alloc, name, &bytes) {
        Ok(()) => Ok(()),
        Err(FileError::Failed) => Err(BuildFailure::WriteFailed),
        Err(FileError::OutOfMemory) => Err(BuildFailure::OutOfMemory),
        Err(FileError::Missing | FileError::TooLong) => unreachable!(),
    }
}
