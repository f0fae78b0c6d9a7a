//! The vCPUs at boot.

ghost use Rattle.std.specs.Prelude.{◌≡◌, ◌<◌, ℕ, length, IfOk, slice_index_or};
ghost use Rattle.fx_image.specs.Rules.{IsImage};
ghost use Rattle.fx_cpu.specs.declared.registers.Regs.{Regs};
ghost use Rattle.fx_machine_model.specs.Boot.{boot_regs, vcpus, home_pkru};

use crate::layout::is_ept;
use fx_cpu::registers::Regs;
use fx_image::{Image, migrate};
use fx_vm_pages::entry::Pkru;
use fx_word_ops::flags::Flags;
use std::alloc::{AllocError, Global};

/// A copy of an image.
pub fn copy_image(alloc: Global, image: &Image) -> Result<Image, AllocError>
    requires { IsImage image.now }
    ensures { IfOk result (λ copy. copy ≡ image.now) }
{
    let mut copy = migrate(alloc, image)?;
    copy.version = image.version;
    Ok(copy)
}

/// The PKRU value of the compartment of `main`.
fn home_pkru(image: &Image) -> u32
    ensures { result ≡ home_pkru image.now }
{
    match image.compartments.as_slice().get(usize::from(image.home)) {
        Some(home) => home.pkru,
        None => 0,
    }
}

/// The registers of a vCPU at boot.
fn boot_regs(image: &Image, vcpu: usize) -> Regs
    ensures { result ≡ boot_regs image.now vcpu }
{
    let (rip, rsp) = match image.starts.as_slice().get(vcpu) {
        Some(start) => (u64::from(start.rip), start.rsp),
        None => (0, 0),
    };
    Regs {
        gpr: [0, 0, 0, 0, rsp, 0, 0, 0, 0, 0, 0, 0, 0, 0, 0, 0],
        rip,
        flags: Flags {
            cf: false,
            zf: false,
            sf: false,
            of: false,
        },
        pkru: Pkru(home_pkru(image)),
    }
}

/// The number of vCPUs: one, or one for each compartment where each has an address space.
fn vcpus(image: &Image) -> usize
    ensures { result ≡ vcpus image.now }
{
    if is_ept(image) {
        image.compartments.len()
    } else {
        1
    }
}

/// The registers of all vCPUs at boot.
pub fn boot_cpus(alloc: Global, image: &Image) -> Result<Vec<Regs>, AllocError>
    ensures many { IfOk result (λ cpus. length cpus.items ≡ vcpus image.now) }
    ensures each { IfOk result (λ cpus. (k : ℕ) (d : Regs) → k < vcpus image.now → slice_index_or cpus.items k d ≡ boot_regs image.now k) }
{
    let mut cpus = Vec::new(alloc);
    for vcpu in 0..vcpus(image) {
        cpus.push(boot_regs(image, vcpu))?;
    }
    Ok(cpus)
}
