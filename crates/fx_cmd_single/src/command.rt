//! The run of a program in one compartment, and what the command does, in the order of work.

ghost use Rattle.std.specs.Prelude.{◌≡◌, ◌≤◌, ℕ, Option, IfOk, length, map, option_map};
ghost use Rattle.fx_base.specs.Told.{Told};
ghost use Rattle.fx_base.specs.Files.{Held, SameFiles};
ghost use Rattle.fx_device.specs.Bus.{plugged};
ghost use Rattle.fx_grants.specs.GrantSets.{merged_of};
ghost use Rattle.fx_c_mean.specs.Rights.{rights_of as rights_from};
ghost use Rattle.fx_cmd_base.specs.Streams.{Streams};
ghost use Rattle.fx_cmd_single.specs.Words.{budget_of as budget_for, single_given};
ghost use Rattle.fx_cmd_single.specs.Comes.{RunsMerged, Comes};

use crate::run::single_run;
use crate::verdict::{Verdict, verdict_of};
use crate::words::SingleWords;
use fx_base::{Files, Sink, Source};
use fx_c_mean::rights::rights_of;
use fx_c_mean_model::rights::Rights;
use fx_cmd_load::{Program, ProgramError, load_program};
use fx_device::Device;
use fx_grants::merged;
use std::alloc::{AllocError, Global};

/// The cost of a run for which no budget is given.
const DEFAULT_BUDGET: u64 = 50_000_000;

/// The budget of a run.
fn budget_of(words: &SingleWords<'_>) -> u64
    ensures { result ≡ budget_for (single_given words.now) }
{
    words.steps.unwrap_or(DEFAULT_BUDGET)
}

/// The rights of a program whose libraries are all in one compartment.
fn merged_rights(alloc: Global, x: &Program) -> Result<Rights, AllocError>
    ensures { IfOk result (λ r. r ≡ rights_from (merged_of x.now.program x.now.config)) }
{
    let grants = merged(alloc, &x.program, &x.config)?;
    rights_of(alloc, &grants)
}

/// Runs a checked program with all its libraries in one compartment.
fn run_merged<I: Source, O: Sink>(
    alloc: Global,
    x: &Program,
    budget: u64,
    input: &mut I,
    out: &mut O,
    devices: Vec<Box<dyn Device>>,
) -> Verdict
    requires { length devices.items ≤ 15 }
    ensures { let boxes =
        map (option_map (λ d. (⟦<dyn Device as Device>⟧ d.vtable).meaning d.value))
        (plugged 15 devices.items) in
        (held kept : Option Held) (faults now : ℕ) →
        let before : Streams = record {
          held = held;
          file_faults = faults;
          left = I.left input.old;
          input_faults = I.faults input.old;
          taken = O.taken out.old;
          output_faults = O.faults out.old;
        } in
        let after : Streams = record {
          held = kept;
          file_faults = now;
          left = I.left input.new;
          input_faults = I.faults input.new;
          taken = O.taken out.new;
          output_faults = O.faults out.new;
        } in
        RunsMerged budget boxes before after x.now.config x.now.program result }
{
    let rights = match merged_rights(alloc, x) {
        Ok(rights) => rights,
        Err(_) => return Verdict::OutOfMemory,
    };
    let ran = single_run(alloc, &x.program, rights, budget, input, out, devices);
    verdict_of(ran.outcome, ran.cost, budget)
}

/// Loads the program of the configuration under a name, and runs it with these devices, at most fifteen: the
/// i-th, from 0, is device i + 1.
pub fn perform<F: Files, I: Source, O: Sink>(
    alloc: Global,
    words: &SingleWords<'_>,
    files: &mut F,
    input: &mut I,
    out: &mut O,
    devices: Vec<Box<dyn Device>>,
) -> Result<Verdict, ProgramError>
    requires { length devices.items ≤ 15 }
    ensures keeps { Told SameFiles (F.held files.old) (F.held files.new) }
    ensures comes { let boxes =
        map (option_map (λ d. (⟦<dyn Device as Device>⟧ d.vtable).meaning d.value))
        (plugged 15 devices.items) in
        let before : Streams = record {
          held = F.held files.old;
          file_faults = F.faults files.old;
          left = I.left input.old;
          input_faults = I.faults input.old;
          taken = O.taken out.old;
          output_faults = O.faults out.old;
        } in
        let after : Streams = record {
          held = F.held files.new;
          file_faults = F.faults files.new;
          left = I.left input.new;
          input_faults = I.faults input.new;
          taken = O.taken out.new;
          output_faults = O.faults out.new;
        } in
        Comes (single_given words.now) boxes before after result }
{
    let x = load_program(alloc, files, words.config)?;
    Ok(run_merged(alloc, &x, budget_of(words), input, out, devices))
}
