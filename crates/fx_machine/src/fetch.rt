//! Fetching an instruction.

ghost use Rattle.std.specs.Prelude.{◌≡◌, ◌<◌, [], IfSome};
ghost use Rattle.fx_image.specs.Rules.{IsImage};
ghost use Rattle.fx_machine_model.specs.Layout.{page_entry};
ghost use Rattle.fx_machine_model.specs.Moves.{fetched};
ghost use Rattle.fx_machine.specs.Agree.{Agrees};
ghost use Rattle.fx_machine_model.specs.declared.fetched.Fetched.TheVariants.{Found};
ghost use Rattle.fx_machine.specs.Lines.{IsDecoded};
ghost use Rattle.fx_machine.specs.Memory.{memory_of};
ghost use Rattle.fx_machine.specs.declared.memory.Memory.{Memory};

use crate::check::check_byte;
use crate::code::{Code, Line};
use crate::layout::is_ept;
use crate::memory::Memory;
use crate::pages::Pages;
use fx_cpu::registers::Regs;
use fx_image::Image;
use fx_machine_model::fetched::Fetched;
use fx_vm_pages::access::Access;
use fx_x64_code::decode::decode;
use fx_x64_forms::inst::Inst;

/// Fetches the instruction at RIP: bytes one at a time until they are a spelling, fifteen at most.
pub fn fetch(image: &Image, pages: &mut Pages, memory: &Memory, vcpu: u8, r: &Regs) -> Fetched
    requires whole { IsImage image.now }
    requires few { vcpu < 16 }
    requires agree { Agrees image.now pages.old }
    ensures value { result ≡ fetched (page_entry image.now vcpu) r.now.pkru (memory_of image.now memory.now) r.now.rip 15 [] }
    ensures agree { Agrees image.now pages.new }
{
    let mut text = [0; 15];
    for n in 0..15 {
        let place = r.rip.wrapping_add(n as u64);
        match check_byte(pages, image, vcpu, r.pkru, Access::Fetch, place) {
            Some(first) => return Fetched::RefusedAt { first },
            None => text[n] = memory.byte(image, place),
        }
        match decode(&text[..n + 1]) {
            Some((inst, length)) => {
                return Fetched::Found {
                    inst,
                    length: length as u64,
                };
            }
            None => {}
        }
    }
    Fetched::Unspelled
}

/// The instruction at RIP with its length, where it was decoded beforehand and the vCPU may fetch all of it:
/// where there is one address space, it maps all code; else the instruction has to stand in one page.
#[inline]
pub fn fetch_line<'a>(
    image: &Image,
    code: &'a Code,
    pages: &mut Pages,
    vcpu: u8,
    r: &Regs,
) -> Option<(&'a Inst, u64)>
    requires whole { IsImage image.now }
    requires decoded { IsDecoded image.now code.now }
    requires few { vcpu < 16 }
    requires agree { Agrees image.now pages.old }
    ensures value { IfSome result (λ f. (memory : Memory) → fetched (page_entry image.now vcpu) r.now.pkru (memory_of image.now memory) r.now.rip 15 [] ≡ Found f.0.now f.1) }
    ensures agree { Agrees image.now pages.new }
{
    if r.rip < 0x40_0000 {
        return None;
    }
    let at = r.rip - 0x40_0000;
    if at >= code.lines.len() as u64 {
        return None;
    }
    let (inst, length) = match &code.lines[at as usize] {
        Line::Unspelled => return None,
        Line::Spelled { inst, length } => (inst, u64::from(*length)),
    };
    if !is_ept(image) {
        return Some((inst, length));
    }
    if r.rip % 4096 + length > 4096 {
        return None;
    }
    match check_byte(pages, image, vcpu, r.pkru, Access::Fetch, r.rip) {
        Some(_) => None,
        None => Some((inst, length)),
    }
}
