//! The top call: reads the words, and does what they say.

ghost use Rattle.std.specs.Prelude.{◌≡◌, ◌≤◌, length, map, option_map, string_bytes};
ghost use Rattle.fx_device.specs.Bus.{plugged};
ghost use Rattle.fx_cmd_base.specs.Ends.{ErrorStream};
ghost use Rattle.fx_cmd_base.specs.Streams.{Streams};
ghost use Rattle.flexos.specs.Table.{CommandTable, Done};

use crate::command::{Command, command_of};
use crate::texts::{help, put_text, version};
use fx_base::{Files, Sink, Source};
use fx_cmd_base::conclude;
use fx_cmd_build::build_command;
use fx_cmd_exec::report::exec_command;
use fx_cmd_migrate::migrate_command;
use fx_cmd_place::place_command;
use fx_cmd_run::report::run_command;
use fx_cmd_show::show_command;
use fx_cmd_single::single_command;
use fx_device::Device;
use std::alloc::Global;

/// The line of words that are no command.
const USAGE_LINE: &str = "usage\n";

/// Does what the words say, and answers the status.
///
/// `exec CONF IMAGE` reads CONF, of at most 16,777,216 bytes, and then `a.c`, of at most 1,048,576;
/// builds the image of `a.c`, writes it under IMAGE, and runs what was built as `run` does, with
/// its options. CONF must be the one document that is taken, and `a.c` a source of constant output.
///
/// `run IMAGE` reads IMAGE and runs it with these devices, at most fifteen: the i-th, from 0, is
/// device i + 1. The options of both, each at most once and in any order, are `--steps N` (N turns
/// in place of 50,000,000), `--schedule FILE` (turn i is the vCPU's that byte i of FILE names, and
/// then that of the number i less their count) and `--unplug D N` (device D is unplugged as soon as
/// N operations of it were made). Both files have at most 16,777,216 bytes.
///
/// `build CONF IMAGE` reads CONF and its sources, checks the program, and writes its image under
/// IMAGE. The mechanism must be plain calls. The limits of the files are those of `exec`, and a
/// refused build writes no file.
///
/// `place CONF` reads CONF and its sources, checks the program, grants and places it, and puts a
/// line for each object of its image to `out`: its address, key, size and name, in order of
/// address. The limits of the files are those of `exec`.
///
/// `single CONF` reads CONF and its sources, checks the program, and runs it by the meaning of the
/// source with all its libraries in one compartment. Its option is `--steps N`: steps are made
/// while their cost so far is below N, or below 50,000,000. The limits of the files are those of
/// `exec`.
///
/// `show IMAGE` reads IMAGE and puts its text to `out`: a header of five lines, and a line for each
/// compartment, entry, section, object, stub, device and start.
///
/// `migrate OLD NEW` reads the image OLD, of version 1 or 2, and writes it under NEW in version 2.
/// Where OLD is no image no file is written. The images of both have at most 16,777,216 bytes.
///
/// `help`, `--help` and `-h` put the commands with their words, options and statuses to `out`, and
/// `--version` the version.
///
/// All other words are usage. One line goes to `err`, but none where a command that makes no run is
/// done. The statuses: 0 the run ended by Exit or the command is done, 1 an access was denied, 2
/// usage, 3 refused, 4 a file's fault, 5 `out` or `err` failed, 6 out of memory, 7 a stack is full,
/// 8 the turns were spent, 9 Divide, BadThread or ThreadsFull, 10 broken, 11 a device failed, 12
/// the input failed.
pub fn flexos<F: Files, I: Source, O: Sink, E: Sink>(
    alloc: Global,
    words: &[String],
    files: &mut F,
    input: &mut I,
    out: &mut O,
    err: &mut E,
    devices: Vec<Box<dyn Device>>,
) -> u8
    requires { length devices.items ≤ 15 }
    // What the words come to, by the table of commands: each answer has its cause, and the line and
    // the status are those of what it came to.
    ensures table { let boxes =
        map (option_map (λ d. (⟦<dyn Device as Device>⟧ d.vtable).meaning d.value))
        (plugged 15 devices.items) in
        let before : Streams = record {
          held = F.held files.old;
          file_faults = F.faults files.old;
          left = I.left input.old;
          input_faults = I.faults input.old;
          taken = O.taken out.old;
          output_faults = O.faults out.old;
        } in
        let after : Streams = record {
          held = F.held files.new;
          file_faults = F.faults files.new;
          left = I.left input.new;
          input_faults = I.faults input.new;
          taken = O.taken out.new;
          output_faults = O.faults out.new;
        } in
        let stream : ErrorStream = record {
          told = E.taken err.old;
          printed = E.taken err.new;
          quiet = E.faults err.old;
          loud = E.faults err.new;
        } in
        CommandTable (map string_bytes words.now) boxes before after stream result }
    // What status 0 means.
    ensures done { let boxes =
        map (option_map (λ d. (⟦<dyn Device as Device>⟧ d.vtable).meaning d.value))
        (plugged 15 devices.items) in
        let before : Streams = record {
          held = F.held files.old;
          file_faults = F.faults files.old;
          left = I.left input.old;
          input_faults = I.faults input.old;
          taken = O.taken out.old;
          output_faults = O.faults out.old;
        } in
        let after : Streams = record {
          held = F.held files.new;
          file_faults = F.faults files.new;
          left = I.left input.new;
          input_faults = I.faults input.new;
          taken = O.taken out.new;
          output_faults = O.faults out.new;
        } in
        let stream : ErrorStream = record {
          told = E.taken err.old;
          printed = E.taken err.new;
          quiet = E.faults err.old;
          loud = E.faults err.new;
        } in
        result ≡ 0 → Done (map string_bytes words.now) boxes before after stream }
{
    let Some(command) = command_of(words) else {
        return conclude(err, 2, USAGE_LINE.as_bytes());
    };
    match command {
        Command::Exec(given) => exec_command(alloc, &given, files, input, out, err, devices),
        Command::Run(given) => run_command(alloc, &given, files, input, out, err, devices),
        Command::Single(given) => single_command(alloc, &given, files, input, out, err, devices),
        Command::Place(place) => place_command(alloc, place.config, files, out, err),
        Command::Build(given) => build_command(alloc, given.config, given.image, files, err),
        Command::Show(show) => show_command(alloc, show.image, files, out, err),
        Command::Migrate(given) => migrate_command(alloc, given.old, given.new, files, err),
        Command::Help => put_text(help(), out, err),
        Command::Version => put_text(version(), out, err),
    }
}
