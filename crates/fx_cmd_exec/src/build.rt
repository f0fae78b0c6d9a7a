//! Builds the image and writes it.

ghost use Rattle.std.specs.Prelude.{◌≡◌, ℕ, ◌≤◌, List, length, Option, Some, IfOk, IfErr, OnOk};
ghost use Rattle.fx_base.specs.Told.{Told};
ghost use Rattle.fx_base.specs.Files.{SameElsewhere};
ghost use Rattle.fx_early_image.specs.Layout.{early_image};
ghost use Rattle.fx_early_image.specs.Faithful.{EarlyFaithful};
ghost use Rattle.fx_image.specs.Rules.{IsImage};
ghost use Rattle.fx_image.specs.Spelling.{image_spelling};
ghost use Rattle.fx_cmd_base.specs.Views.{exec_given};
ghost use Rattle.fx_cmd_exec.specs.Causes.{ImageCause, UnbuiltLeaves};
ghost use Rattle.fx_cmd_exec.specs.Builds.{Builds, Writes, WhyUnbuilt};

use crate::inputs::{take_config, take_source};
use crate::unbuilt::{Unbuilt, Which};
use fx_base::{FileError, Files};
use fx_cmd_base::words::ExecWords;
use fx_early_image::build::build;
use fx_image::{Image, print};
use std::alloc::Global;

/// Writes the bytes of the image under its name.
fn write_image<F: Files>(
    alloc: Global,
    files: &mut F,
    name: &str,
    bytes: &[u8],
) -> Result<(), Unbuilt>
    ensures written { Told (λ old new. OnOk result (new name.now ≡ Some bytes.now))
        (F.held files.old) (F.held files.new) }
    ensures others { Told (SameElsewhere name.now) (F.held files.old) (F.held files.new) }
    ensures later { F.faults files.old ≤ F.faults files.new }
    ensures cause { IfErr result (ImageCause (F.faults files.old) (F.faults files.new)) }
{
    match files.write(alloc, name, bytes) {
        Ok(()) => Ok(()),
        Err(FileError::OutOfMemory) => Err(Unbuilt::OutOfMemory),
        Err(error) => Err(Unbuilt::FileFault {
            which: Which::Image,
            error,
        }),
    }
}

/// Builds the image of the constants and writes its spelling under the name.
fn make_image<F: Files>(
    alloc: Global,
    files: &mut F,
    name: &str,
    constants: &[u8],
) -> Result<Image, Unbuilt>
    requires few { length constants.now ≤ 1000 }
    ensures value { IfOk result (λ i. i ≡ early_image constants.now) }
    ensures rules { IfOk result (λ i. IsImage i) }
    ensures faithful { IfOk result (λ i. EarlyFaithful constants.now i) }
    ensures written { IfOk result (λ i.
        Told (λ old new. new name.now ≡ Some (image_spelling i)) (F.held files.old)
        (F.held files.new)) }
    ensures others { Told (SameElsewhere name.now) (F.held files.old) (F.held files.new) }
    ensures later { F.faults files.old ≤ F.faults files.new }
    ensures cause { IfErr result (ImageCause (F.faults files.old) (F.faults files.new)) }
{
    let image = build(alloc, constants)?;
    let bytes = print(alloc, &image)?;
    write_image(alloc, files, name, &bytes)?;
    Ok(image)
}

/// Reads the configuration and the source, and builds and writes the image.
pub fn build_image<F: Files>(
    alloc: Global,
    files: &mut F,
    words: &ExecWords<'_>,
) -> Result<Image, Unbuilt>
    ensures built { IfOk result (λ i. (constants : List ℕ)
        × Builds (exec_given words.now).config (F.held files.old) constants i) }
    ensures written { IfOk result (λ i.
        Writes (exec_given words.now).run.image i (F.held files.old) (F.held files.new)) }
    ensures unbuilt { IfErr result (WhyUnbuilt (exec_given words.now)
        (F.held files.old) (F.held files.new) (F.faults files.old) (F.faults files.new)) }
    ensures counted { IfErr result (UnbuiltLeaves (F.held files.old) (F.faults files.old)
        (F.faults files.new)) }
    ensures later { F.faults files.old ≤ F.faults files.new }
{
    take_config(alloc, files, words.config)?;
    let constants = take_source(alloc, files)?;
    make_image(alloc, files, words.run.image, &constants)
}
