//! The run of an image, and what the command `run` does.

ghost use Rattle.std.specs.Prelude.{◌≡◌, ◌≤◌, ℕ, length, map, option_map};
ghost use Rattle.fx_base.specs.Told.{Told};
ghost use Rattle.fx_base.specs.Files.{SameFiles};
ghost use Rattle.fx_device.specs.Bus.{plugged};
ghost use Rattle.fx_image.specs.Rules.{IsImage};
ghost use Rattle.fx_cmd_base.specs.Streams.{Streams};
ghost use Rattle.fx_cmd_base.specs.Views.{given, run_given};
ghost use Rattle.fx_cmd_run.specs.Comes.{Comes, ImageComes, CameLeaves, budget_of};

use crate::load::{Unbegun, take_image, take_schedule};
use crate::verdict::{Verdict, verdict_of};
use fx_base::{Files, Sink, Source};
use fx_cmd_base::words::{Options, RunWords};
use fx_device::Device;
use fx_image::Image;
use fx_run_core::run::run;
use std::alloc::Global;

/// A run that has ended: the image that was run, and what its end is called.
#[derive(Drop)]
pub struct Finished {
    pub image: Image,
    pub verdict: Verdict,
}

/// The turns of a run for which none are given.
const DEFAULT_BUDGET: u64 = 50_000_000;

/// The most turns of a run.
fn budget_of(options: &Options<'_>) -> u64
    ensures { result ≡ budget_of (given options.now) }
{
    options.steps.unwrap_or(DEFAULT_BUDGET)
}

/// Reads the schedule and runs an image with these devices, at most fifteen: the i-th, from 0, is device i + 1.
/// The schedule has at most 16,777,216 bytes.
pub fn run_image<F: Files, I: Source, O: Sink>(
    alloc: Global,
    image: Image,
    options: &Options<'_>,
    files: &mut F,
    input: &mut I,
    out: &mut O,
    devices: Vec<Box<dyn Device>>,
) -> Result<Finished, Unbegun>
    requires whole { IsImage image }
    requires few { length devices.items ≤ 15 }
    ensures keeps { Told SameFiles (F.held files.old) (F.held files.new) }
    ensures later { F.faults files.old ≤ F.faults files.new }
    ensures counted { CameLeaves
        (F.held files.old) (F.faults files.old) (F.faults files.new) result }
    ensures comes { let boxes =
        map (option_map (λ d. (⟦<dyn Device as Device>⟧ d.vtable).meaning d.value))
        (plugged 15 devices.items) in
        let before : Streams = record {
          held = F.held files.old;
          file_faults = F.faults files.old;
          left = I.left input.old;
          input_faults = I.faults input.old;
          taken = O.taken out.old;
          output_faults = O.faults out.old;
        } in
        let after : Streams = record {
          held = F.held files.new;
          file_faults = F.faults files.new;
          left = I.left input.new;
          input_faults = I.faults input.new;
          taken = O.taken out.new;
          output_faults = O.faults out.new;
        } in
        ImageComes (given options.now) boxes before after image result }
{
    let schedule = take_schedule(alloc, files, options.schedule)?;
    let ended = run(
        alloc,
        &image,
        &schedule,
        budget_of(options),
        options.unplug,
        input,
        out,
        devices,
    );
    let verdict = verdict_of(&image, ended.outcome, ended.turns);
    Ok(Finished { image, verdict })
}

/// Reads the image, and runs it with these devices, at most fifteen: the i-th, from 0, is device i + 1. Files
/// are read of at most 16,777,216 bytes.
pub fn perform<F: Files, I: Source, O: Sink>(
    alloc: Global,
    words: &RunWords<'_>,
    files: &mut F,
    input: &mut I,
    out: &mut O,
    devices: Vec<Box<dyn Device>>,
) -> Result<Finished, Unbegun>
    requires { length devices.items ≤ 15 }
    ensures keeps { Told SameFiles (F.held files.old) (F.held files.new) }
    ensures counted { CameLeaves
        (F.held files.old) (F.faults files.old) (F.faults files.new) result }
    ensures comes { let boxes =
        map (option_map (λ d. (⟦<dyn Device as Device>⟧ d.vtable).meaning d.value))
        (plugged 15 devices.items) in
        let before : Streams = record {
          held = F.held files.old;
          file_faults = F.faults files.old;
          left = I.left input.old;
          input_faults = I.faults input.old;
          taken = O.taken out.old;
          output_faults = O.faults out.old;
        } in
        let after : Streams = record {
          held = F.held files.new;
          file_faults = F.faults files.new;
          left = I.left input.new;
          input_faults = I.faults input.new;
          taken = O.taken out.new;
          output_faults = O.faults out.new;
        } in
        Comes (run_given words.now) boxes before after result }
{
    let image = take_image(alloc, files, words.image)?;
    run_image(alloc, image, &words.options, files, input, out, devices)
}
