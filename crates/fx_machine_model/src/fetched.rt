//! What a fetch finds.

use fx_vm_pages::access::Refusal;
use fx_x64_forms::inst::Inst;

/// What was found at RIP.
#[derive(Clone, Copy, Debug, PartialEq, Eq)]
pub enum Fetched {
    /// An instruction of so many bytes.
    Found { inst: Inst, length: u64 },
    /// The first refused byte, with its refusal.
    RefusedAt { first: (u64, Refusal) },
    /// Fifteen bytes that spell no instruction.
    Unspelled,
}
