//! How an instruction ends.

use fx_vm_pages::access::{Access, Refusal};

/// Why an access was neither carried out nor refused.
#[derive(Clone, Copy, Debug, PartialEq, Eq)]
pub enum Why {
    /// The device of this number failed.
    Device(u16),
    /// The load waits for an answer.
    Input,
    OutOfMemory,
}

/// Why a port didn't carry out an access.
#[derive(Clone, Copy, Debug, PartialEq, Eq)]
pub enum PortStop {
    /// It is refused; the address is that of the first refused byte.
    Refused { address: u64, refusal: Refusal },
    Outside(Why),
}

/// Why an instruction wasn't done.
#[derive(Clone, Copy, Debug, PartialEq, Eq)]
pub enum Trap {
    /// An access of it was refused; the address is that of the first refused byte.
    Page {
        address: u64,
        access: Access,
        refusal: Refusal,
    },
    /// Fifteen bytes begin with no instruction.
    Invalid,
    /// WRPKRU or RDPKRU found ECX or EDX not 0.
    Protection,
    /// A divisor was 0, or a quotient didn't fit.
    Divide,
    /// HLT.
    Halt,
    /// A load waits, a device failed, or there was no memory for a device's operation.
    Outside(Why),
}

/// Whether an instruction was done.
#[derive(Clone, Copy, Debug, PartialEq, Eq)]
pub enum Stepped {
    Went,
    Fault(Trap),
}
