//! The line on the error stream, and the status.

ghost use Rattle.std.specs.Prelude.{◌≤◌, length, map, option_map};
ghost use Rattle.fx_device.specs.Bus.{plugged};
ghost use Rattle.fx_cmd_base.specs.Ends.{ErrorStream};
ghost use Rattle.fx_cmd_base.specs.Streams.{Streams};
ghost use Rattle.fx_cmd_base.specs.Views.{run_given};
ghost use Rattle.fx_cmd_run.specs.Reports.{Reports, Does};

use crate::command::{Finished, perform};
use crate::line::{line, status};
use crate::load::Unbegun;
use fx_base::{Files, Sink, Source};
use fx_cmd_base::words::RunWords;
use fx_cmd_base::{conclude, report_out_of_memory};
use fx_device::Device;
use std::alloc::Global;

/// Puts the line of what a run came to, and answers its status.
pub fn report<E: Sink>(
    alloc: Global,
    err: &mut E,
    words: &RunWords<'_>,
    came: &Result<Finished, Unbegun>,
) -> u8
    ensures { let stream : ErrorStream = record {
      told = E.taken err.old;
      printed = E.taken err.new;
      quiet = E.faults err.old;
      loud = E.faults err.new;
    } in
        Reports (run_given words.now) came.now result stream }
{
    match line(alloc, words, came) {
        Ok(text) => conclude(err, status(came), &text),
        Err(_) => report_out_of_memory(err),
    }
}

/// Does what `run IMAGE` with its options says, puts its line to `err` and answers its status: 0 where the run
/// ends by Exit, 1 where an access is denied, 3 where the image is refused, 4 where a file can't be read, 5
/// where `out` or `err` failed, 6 out of memory, 7 where a stack is full, 8 where the turns are spent, 9 where
/// it ends by Divide, BadThread or ThreadsFull, 10 where it is broken, 11 where a device failed and 12 where
/// the input did.
pub fn run_command<F: Files, I: Source, O: Sink, E: Sink>(
    alloc: Global,
    words: &RunWords<'_>,
    files: &mut F,
    input: &mut I,
    out: &mut O,
    err: &mut E,
    devices: Vec<Box<dyn Device>>,
) -> u8
    requires { length devices.items ≤ 15 }
    ensures { let boxes =
        map (option_map (λ d. (⟦<dyn Device as Device>⟧ d.vtable).meaning d.value))
        (plugged 15 devices.items) in
        let before : Streams = record {
          held = F.held files.old;
          file_faults = F.faults files.old;
          left = I.left input.old;
          input_faults = I.faults input.old;
          taken = O.taken out.old;
          output_faults = O.faults out.old;
        } in
        let after : Streams = record {
          held = F.held files.new;
          file_faults = F.faults files.new;
          left = I.left input.new;
          input_faults = I.faults input.new;
          taken = O.taken out.new;
          output_faults = O.faults out.new;
        } in
        let stream : ErrorStream = record {
          told = E.taken err.old;
          printed = E.taken err.new;
          quiet = E.faults err.old;
          loud = E.faults err.new;
        } in
        Does (run_given words.now) boxes before after result stream }
{
    let came = perform(alloc, words, files, input, out, devices);
    report(alloc, err, words, &came)
}
