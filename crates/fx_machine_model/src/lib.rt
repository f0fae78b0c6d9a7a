//! What machines that run images are measured by.
//!
//! An image says what each page of each address space is, what memory and registers hold at boot,
//! and how many vCPUs there are. One turn executes one whole instruction of one vCPU. The
//! definitions (in `specs/`) are functions of the image: `page_entry` and `boot_byte` of the address
//! layout, `move` of one turn, `run_image` of a schedule. The laws (in `proofs/`) say which entry each
//! region's pages have, and what a turn does of an instruction that stands in the code. No machine is
//! here: the code is what machines share, the bytes at boot, the keys and stacks of the layout, what a
//! fetch finds, what a turn answers and why a machine stops. Processor and pages follow the Intel 64
//! and IA-32 Architectures Software Developer's Manual in the subset of `fx_cpu` and `fx_vm_pages`;
//! the layout, the devices and the stops are this project's own.
#![tactic(auto)]

pub mod boot;
pub mod fetched;
pub mod layout;
pub mod outcome;
pub mod stop;
