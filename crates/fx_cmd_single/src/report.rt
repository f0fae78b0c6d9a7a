//! The line on the error stream, and the status.

ghost use Rattle.std.specs.Prelude.{◌≤◌, length, map, option_map};
ghost use Rattle.fx_device.specs.Bus.{plugged};
ghost use Rattle.fx_cmd_base.specs.Ends.{ErrorStream};
ghost use Rattle.fx_cmd_base.specs.Streams.{Streams};
ghost use Rattle.fx_cmd_single.specs.Words.{single_given};
ghost use Rattle.fx_cmd_single.specs.Reports.{Reports, DoesSingle};

use crate::command::perform;
use crate::line::{line, status};
use crate::verdict::Verdict;
use crate::words::SingleWords;
use fx_base::{Files, Sink, Source};
use fx_cmd_base::{conclude, report_out_of_memory};
use fx_cmd_load::ProgramError;
use fx_device::Device;
use std::alloc::Global;

/// Puts the line of what the command came to, and answers its status.
fn report<E: Sink>(alloc: Global, err: &mut E, came: &Result<Verdict, ProgramError>) -> u8
    ensures { let stream : ErrorStream = record {
      told = E.taken err.old;
      printed = E.taken err.new;
      quiet = E.faults err.old;
      loud = E.faults err.new;
    } in
        Reports came.now result stream }
{
    match line(alloc, came) {
        Ok(text) => conclude(err, status(came), text.as_bytes()),
        Err(_) => report_out_of_memory(err),
    }
}

/// Does what `single CONF` says, puts its line to `err` and answers its status: reads the configuration and its
/// sources, checks the program, and runs it with all its libraries in one compartment, as long as the cost of its
/// steps is below the budget, which is 50,000,000 where none is given.
///
/// The statuses: 0 where `main` returns, 3 refused by the configuration, a source or a type rule, 4 a file's
/// fault, 5 `out` or `err` failed, 6 out of memory, 7 where the stack is full, 8 where the budget is spent, 9
/// where it ends by Divide, BadThread or ThreadsFull, 10 where a step is undefined, 11 where a device failed and
/// 12 where the input did.
pub fn single_command<F: Files, I: Source, O: Sink, E: Sink>(
    alloc: Global,
    words: &SingleWords<'_>,
    files: &mut F,
    input: &mut I,
    out: &mut O,
    err: &mut E,
    devices: Vec<Box<dyn Device>>,
) -> u8
    requires { length devices.items ≤ 15 }
    // What it came to, each answer with its cause, and the line and status of that. No file is changed.
    ensures { let boxes =
        map (option_map (λ d. (⟦<dyn Device as Device>⟧ d.vtable).meaning d.value))
        (plugged 15 devices.items) in
        let before : Streams = record {
          held = F.held files.old;
          file_faults = F.faults files.old;
          left = I.left input.old;
          input_faults = I.faults input.old;
          taken = O.taken out.old;
          output_faults = O.faults out.old;
        } in
        let after : Streams = record {
          held = F.held files.new;
          file_faults = F.faults files.new;
          left = I.left input.new;
          input_faults = I.faults input.new;
          taken = O.taken out.new;
          output_faults = O.faults out.new;
        } in
        let stream : ErrorStream = record {
          told = E.taken err.old;
          printed = E.taken err.new;
          quiet = E.faults err.old;
          loud = E.faults err.new;
        } in
        DoesSingle (single_given words.now) boxes before after result stream }
{
    let came = perform(alloc, words, files, input, out, devices);
    report(alloc, err, &came)
}
