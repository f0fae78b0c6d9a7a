//! Writing an image in the version that is written today.

ghost use Rattle.std.specs.Prelude.{◌≡◌, ◌≤◌, Some, OnOk, IfOk, IfErr};
ghost use Rattle.fx_base.specs.Told.{Told};
ghost use Rattle.fx_base.specs.Files.{SameElsewhere};
ghost use Rattle.fx_image.specs.Rules.{IsImage};
ghost use Rattle.fx_image.specs.ImageBytes.{ImageBytes};
ghost use Rattle.fx_cmd_migrate.specs.Migrates.{current, Writes, WritingCause};

use crate::failure::Unmigrated;
use fx_base::{FileError, Files};
use fx_image::{Image, migrate, print};
use std::alloc::{AllocError, Global};

/// The bytes of an image in the version that is written today.
fn current_bytes(alloc: Global, image: &Image) -> Result<Vec<u8>, AllocError>
    requires { IsImage image.now }
    ensures { IfOk result (λ v. ImageBytes (current image.now) v.items) }
{
    let current = migrate(alloc, image)?;
    print(alloc, &current)
}

/// Writes a file of these bytes.
fn write_file<F: Files>(
    alloc: Global,
    files: &mut F,
    name: &str,
    bytes: &[u8],
) -> Result<(), Unmigrated>
    ensures written { Told (λ old new. OnOk result (new name.now ≡ Some bytes.now))
        (F.held files.old) (F.held files.new) }
    ensures others { Told (SameElsewhere name.now) (F.held files.old) (F.held files.new) }
    ensures later { F.faults files.old ≤ F.faults files.new }
    ensures cause { IfErr result (WritingCause (F.faults files.old) (F.faults files.new)) }
{
    match files.write(alloc, name, bytes) {
        Ok(()) => Ok(()),
        Err(FileError::Failed) => Err(Unmigrated::WriteFailed),
        Err(FileError::OutOfMemory) => Err(Unmigrated::OutOfMemory),
        Err(FileError::Missing | FileError::TooLong) => unreachable!(),
    }
}

/// Writes an image under a name, in the version that is written today.
pub fn write_current<F: Files>(
    alloc: Global,
    files: &mut F,
    name: &str,
    image: &Image,
) -> Result<(), Unmigrated>
    requires { IsImage image.now }
    // The spelling stands under the name.
    ensures written { OnOk result (Writes name.now image.now (F.held files.old)
        (F.held files.new)) }
    // Every other file is as it was, also after a fault.
    ensures others { Told (SameElsewhere name.now) (F.held files.old) (F.held files.new) }
    ensures later { F.faults files.old ≤ F.faults files.new }
    ensures cause { IfErr result (WritingCause (F.faults files.old) (F.faults files.new)) }
{
    let bytes = current_bytes(alloc, image)?;
    write_file(alloc, files, name, &bytes)
}
