//! The command, its line on the error stream, and its status.

ghost use Rattle.std.specs.Prelude.{◌≡◌, ◌≤◌, ◌∷◌, ◌++◌, [], length, map, option_map};
ghost use Rattle.std.specs.Prelude.{IfOk, string_bytes};
ghost use Rattle.fx_device.specs.Bus.{plugged};
ghost use Rattle.fx_cmd_base.specs.Ends.{ErrorStream, EndedOrWanted};
ghost use Rattle.fx_cmd_base.specs.RefusalWords.{file_fault};
ghost use Rattle.fx_cmd_base.specs.Streams.{Streams};
ghost use Rattle.fx_cmd_base.specs.Views.{exec_given};
ghost use Rattle.fx_cmd_exec.specs.Any.{ComesAny};
ghost use Rattle.fx_cmd_exec.specs.Does.{DoesExec, DoneExec};

use crate::build::build_image;
use crate::unbuilt::{Unbuilt, name_of};
use fx_base::{FileError, Files, Sink, Source};
use fx_cmd_base::words::ExecWords;
use fx_cmd_base::{conclude, file_fault, report_out_of_memory};
use fx_cmd_build::{perform, report_failure};
use fx_cmd_run::command::run_image;
use fx_cmd_run::report::report;
use fx_device::Device;
use fx_early_law::laws::early_runs_play;
use std::alloc::{AllocError, Global};

/// The status of a file's fault.
const FILE_FAULT: u8 = 4;

/// The line of a file's fault, ended by a line feed.
fn fault_line(alloc: Global, name: &str, error: FileError) -> Result<String, AllocError>
    ensures { IfOk result (λ s. string_bytes s ≡ file_fault name.now error ++ 10 ∷ []) }
{
    let mut line = file_fault(alloc, name, error)?;
    line.push_str("\n")?;
    Ok(line)
}

/// Puts the line of a file's fault, and answers its status.
fn report_fault<E: Sink>(alloc: Global, err: &mut E, name: &str, error: FileError) -> u8
    ensures { let stream : ErrorStream = record {
      told = E.taken err.old;
      printed = E.taken err.new;
      quiet = E.faults err.old;
      loud = E.faults err.new;
    } in
        EndedOrWanted 4 (file_fault name.now error ++ 10 ∷ []) result stream }
{
    match fault_line(alloc, name, error) {
        Ok(line) => conclude(err, FILE_FAULT, line.as_bytes()),
        Err(_) => report_out_of_memory(err),
    }
}

/// Builds the image of any program, writes it and runs it.
fn exec_any<F: Files, I: Source, O: Sink, E: Sink>(
    alloc: Global,
    words: &ExecWords<'_>,
    files: &mut F,
    input: &mut I,
    out: &mut O,
    err: &mut E,
    devices: Vec<Box<dyn Device>>,
) -> u8
    requires { length devices.items ≤ 15 }
    ensures { let boxes =
        map (option_map (λ d. (⟦<dyn Device as Device>⟧ d.vtable).meaning d.value))
        (plugged 15 devices.items) in
        let before : Streams = record {
          held = F.held files.old;
          file_faults = F.faults files.old;
          left = I.left input.old;
          input_faults = I.faults input.old;
          taken = O.taken out.old;
          output_faults = O.faults out.old;
        } in
        let after : Streams = record {
          held = F.held files.new;
          file_faults = F.faults files.new;
          left = I.left input.new;
          input_faults = I.faults input.new;
          taken = O.taken out.new;
          output_faults = O.faults out.new;
        } in
        let stream : ErrorStream = record {
          told = E.taken err.old;
          printed = E.taken err.new;
          quiet = E.faults err.old;
          loud = E.faults err.new;
        } in
        ComesAny (exec_given words.now) boxes before after before.held before.file_faults result
        stream }
{
    match perform(alloc, words.config, words.run.image, files) {
        Ok(image) => {
            let came = run_image(alloc, image, &words.run.options, files, input, out, devices);
            report(alloc, err, &words.run, &came)
        }
        Err(why) => report_failure(alloc, err, words.run.image, &why),
    }
}

/// Does what `exec CONF IMAGE` with its options says, puts its line to `err` and answers its status:
/// builds the image of the configuration CONF and its sources as `build` does, writes it under IMAGE,
/// and runs it as `run IMAGE` runs the image that it read.
///
/// Where CONF is the one document of programs of constant output and its source `a.c` such a program,
/// the image is that of its constants, which is proved to be faithful to it.
///
/// The statuses: those of `build` where no image was written, and those of `run` else.
pub fn exec_command<F: Files, I: Source, O: Sink, E: Sink>(
    alloc: Global,
    words: &ExecWords<'_>,
    files: &mut F,
    input: &mut I,
    out: &mut O,
    err: &mut E,
    devices: Vec<Box<dyn Device>>,
) -> u8
    requires { length devices.items ≤ 15 }
    // What it came to, each answer with its cause, and the line and status of that.
    ensures does { let boxes =
        map (option_map (λ d. (⟦<dyn Device as Device>⟧ d.vtable).meaning d.value))
        (plugged 15 devices.items) in
        let before : Streams = record {
          held = F.held files.old;
          file_faults = F.faults files.old;
          left = I.left input.old;
          input_faults = I.faults input.old;
          taken = O.taken out.old;
          output_faults = O.faults out.old;
        } in
        let after : Streams = record {
          held = F.held files.new;
          file_faults = F.faults files.new;
          left = I.left input.new;
          input_faults = I.faults input.new;
          taken = O.taken out.new;
          output_faults = O.faults out.new;
        } in
        let stream : ErrorStream = record {
          told = E.taken err.old;
          printed = E.taken err.new;
          quiet = E.faults err.old;
          loud = E.faults err.new;
        } in
        DoesExec (exec_given words.now) boxes before after result stream }
    // Status 0: the image of the program read was written and run, and the run ended by Exit; at a
    // program of constant output it is faithful to the source, and the output took its constants.
    ensures done { let boxes =
        map (option_map (λ d. (⟦<dyn Device as Device>⟧ d.vtable).meaning d.value))
        (plugged 15 devices.items) in
        let before : Streams = record {
          held = F.held files.old;
          file_faults = F.faults files.old;
          left = I.left input.old;
          input_faults = I.faults input.old;
          taken = O.taken out.old;
          output_faults = O.faults out.old;
        } in
        let after : Streams = record {
          held = F.held files.new;
          file_faults = F.faults files.new;
          left = I.left input.new;
          input_faults = I.faults input.new;
          taken = O.taken out.new;
          output_faults = O.faults out.new;
        } in
        let stream : ErrorStream = record {
          told = E.taken err.old;
          printed = E.taken err.new;
          quiet = E.faults err.old;
          loud = E.faults err.new;
        } in
        result ≡ 0 → DoneExec (exec_given words.now) boxes before after stream }
    // It is never usage.
    ensures named { result ≡ 2 → ⊥ }
{
    early_runs_play();
    match build_image(alloc, files, words) {
        Ok(image) => {
            let came = run_image(alloc, image, &words.run.options, files, input, out, devices);
            report(alloc, err, &words.run, &came)
        }
        Err(Unbuilt::Other(_)) => exec_any(alloc, words, files, input, out, err, devices),
        Err(Unbuilt::FileFault { which, error }) => {
            report_fault(alloc, err, name_of(words, which), error)
        }
        Err(Unbuilt::OutOfMemory) => report_out_of_memory(err),
    }
}
