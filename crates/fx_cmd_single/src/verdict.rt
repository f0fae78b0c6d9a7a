//! What the end of a run in one compartment is called.

ghost use Rattle.std.specs.Prelude.{◌≡◌};
ghost use Rattle.fx_c_mean_model.specs.Laws.{IsNoDenial};
ghost use Rattle.fx_cmd_single.specs.Verdicts.{IsUndenied, Calls, IsCalled, status_of};

use crate::Outcome;
use fx_c_mean_model::end::End;

/// What the end of a run is called.
#[derive(Clone, Copy, Debug, PartialEq, Eq)]
pub enum Verdict {
    /// `main` returned this value, after steps of this cost.
    Exited { value: i64, cost: u64 },
    /// A frame did not fit the stack of this thread.
    StackFull { thread: u8 },
    Divide,
    BadThread,
    ThreadsFull,
    /// The language gives the next step no meaning.
    Undefined,
    /// The steps made cost this budget or more, and the program has not ended.
    Spent { budget: u64 },
    DeviceFault(u16),
    ReadFault,
    WriteFault,
    OutOfMemory,
}

/// What an end after steps of this cost is called.
fn called(end: End, cost: u64) -> Verdict
    requires { IsNoDenial end }
    ensures { Calls end cost result }
{
    match end {
        End::Exit(value) => Verdict::Exited { value, cost },
        End::Denied { .. } => unreachable!(),
        End::StackFull { thread, .. } => Verdict::StackFull { thread },
        End::Divide => Verdict::Divide,
        End::BadThread => Verdict::BadThread,
        End::ThreadsFull => Verdict::ThreadsFull,
        End::Undefined => Verdict::Undefined,
    }
}

/// What the end of a run within a budget is called, where its steps cost so much.
pub fn verdict_of(outcome: Outcome, cost: u64, budget: u64) -> Verdict
    requires { IsUndenied outcome }
    ensures { IsCalled outcome cost budget result }
{
    match outcome {
        Outcome::Ended(end) => called(end, cost),
        Outcome::Spent => Verdict::Spent { budget },
        Outcome::Device(device) => Verdict::DeviceFault(device),
        Outcome::ReadFault => Verdict::ReadFault,
        Outcome::WriteFault => Verdict::WriteFault,
        Outcome::OutOfMemory => Verdict::OutOfMemory,
    }
}

impl Verdict {
    /// The status that a run ends with.
    pub fn status(self) -> u8
        ensures { result ≡ status_of self }
    {
        match self {
            Verdict::Exited { .. } => 0,
            Verdict::WriteFault => 5,
            Verdict::OutOfMemory => 6,
            Verdict::StackFull { .. } => 7,
            Verdict::Spent { .. } => 8,
            Verdict::Divide | Verdict::BadThread | Verdict::ThreadsFull => 9,
            Verdict::Undefined => 10,
            Verdict::DeviceFault(_) => 11,
            Verdict::ReadFault => 12,
        }
    }
}
