//! What the end of a run is.

ghost use Rattle.std.specs.Prelude.{◌≡◌};
ghost use Rattle.fx_image.specs.Layout.{object_at};
ghost use Rattle.fx_image.specs.Rules.{IsImage};
ghost use Rattle.fx_machine_model.specs.Layout.{is_ept};
ghost use Rattle.fx_cmd_run.specs.Verdicts.{is_object, is_data, denies, is_write, refused, stopped, verdict_of, status_of};

use fx_image::{Found, Image, object_of};
use fx_machine_model::outcome::Outcome;
use fx_machine_model::stop::Stop;
use fx_vm_pages::access::{Access, Refusal};

/// What the end of a run is.
#[derive(Clone, Copy, Debug, PartialEq, Eq)]
pub enum Verdict {
    /// The program is done, with a value, after so many turns.
    Exited {
        value: i64,
        turns: u64,
    },
    /// A read or a write of an object or a stack was denied to a compartment, 255 where none acted.
    Denied {
        domain: u8,
        place: Found,
        write: bool,
    },
    /// A stack of a thread is full.
    StackFull {
        thread: u64,
        stack: u64,
    },
    Divide,
    BadThread,
    ThreadsFull,
    Invalid,
    Protection,
    Aborted,
    /// Another access was refused, at this address.
    Page(u64),
    /// All turns of the budget were made.
    Spent {
        turns: u64,
    },
    /// This device failed.
    DeviceFault(u16),
    ReadFault,
    WriteFault,
    OutOfMemory,
}

fn is_object(place: Found) -> bool
    ensures { result ≡ is_object place }
{
    match place {
        Found::Object { .. } => true,
        Found::Stack { .. } | Found::Nothing => false,
    }
}

fn is_data(place: Found) -> bool
    ensures { result ≡ is_data place }
{
    match place {
        Found::Object { .. } | Found::Stack { .. } => true,
        Found::Nothing => false,
    }
}

/// Whether a refusal is a denial, by what lies at the address.
fn denies(ept: bool, access: Access, refusal: Refusal, place: Found) -> bool
    ensures { result ≡ denies ept access refusal place }
{
    match access {
        Access::Fetch => false,
        Access::Read => match refusal {
            Refusal::Key => is_data(place),
            Refusal::Unmapped => ept & is_data(place),
            Refusal::Permission => false,
        },
        Access::Write => match refusal {
            Refusal::Key => is_data(place),
            Refusal::Unmapped => ept & is_data(place),
            Refusal::Permission => ept & is_object(place),
        },
    }
}

fn is_write(access: Access) -> bool
    ensures { result ≡ is_write access }
{
    match access {
        Access::Write => true,
        Access::Read | Access::Fetch => false,
    }
}

/// What a refused access is called.
fn refused(
    image: &Image,
    domain: u8,
    address: u64,
    access: Access,
    refusal: Refusal,
    place: Found,
) -> Verdict
    ensures { result ≡ refused image.now domain address access refusal place }
{
    if denies(image.mechanism == 3, access, refusal, place) {
        Verdict::Denied {
            domain,
            place,
            write: is_write(access),
        }
    } else {
        Verdict::Page(address)
    }
}

/// What a stop is called.
fn stopped(image: &Image, stop: Stop, turns: u64) -> Verdict
    requires { IsImage image.now }
    ensures { result ≡ stopped image.now stop turns }
{
    match stop {
        Stop::Exit(value) => Verdict::Exited { value, turns },
        Stop::Page {
            domain,
            address,
            access,
            refusal,
            ..
        } => refused(
            image,
            domain,
            address,
            access,
            refusal,
            object_of(image, address),
        ),
        Stop::Invalid => Verdict::Invalid,
        Stop::Protection => Verdict::Protection,
        Stop::Divide => Verdict::Divide,
        Stop::StackFull { thread, stack } => Verdict::StackFull { thread, stack },
        Stop::BadThread => Verdict::BadThread,
        Stop::ThreadsFull => Verdict::ThreadsFull,
        Stop::Aborted => Verdict::Aborted,
    }
}

/// What the end of a run after so many turns is called.
pub fn verdict_of(image: &Image, outcome: Outcome, turns: u64) -> Verdict
    requires { IsImage image.now }
    ensures { result ≡ verdict_of image.now outcome turns }
{
    match outcome {
        Outcome::Stopped(stop) => stopped(image, stop, turns),
        Outcome::Spent => Verdict::Spent { turns },
        Outcome::Device(device) => Verdict::DeviceFault(device),
        Outcome::ReadFault => Verdict::ReadFault,
        Outcome::WriteFault => Verdict::WriteFault,
        Outcome::OutOfMemory => Verdict::OutOfMemory,
    }
}

impl Verdict {
    /// The status that a run ends with.
    pub fn status(self) -> u8
        ensures { result ≡ status_of self }
    {
        match self {
            Verdict::Exited { .. } => 0,
            Verdict::Denied { .. } => 1,
            Verdict::WriteFault => 5,
            Verdict::OutOfMemory => 6,
            Verdict::StackFull { .. } => 7,
            Verdict::Spent { .. } => 8,
            Verdict::Divide | Verdict::BadThread | Verdict::ThreadsFull => 9,
            Verdict::Invalid | Verdict::Protection | Verdict::Aborted | Verdict::Page(_) => 10,
            Verdict::DeviceFault(_) => 11,
            Verdict::ReadFault => 12,
        }
    }
}
