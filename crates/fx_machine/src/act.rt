//! What one instruction does to registers and memory.

ghost use Rattle.std.specs.Prelude.{◌≡◌, ◌≢◌, ◌+◌, ◌<◌, false, None, IfSome, IsTrue, length};
ghost use Rattle.fx_cpu.specs.Registers.{past, reg};
ghost use Rattle.fx_cpu.specs.Does.{need, finish, alu, kept};
ghost use Rattle.fx_image.specs.Rules.{IsImage};
ghost use Rattle.fx_machine_model.specs.Moves.{holder, domain_of, trapped, refused, operation, perform, move};
ghost use Rattle.fx_machine.specs.Acting.{world, ActsBy, Accesses};
ghost use Rattle.fx_machine.specs.Agree.{Agrees};
ghost use Rattle.fx_machine.specs.Lines.{IsDecoded};
ghost use Rattle.fx_machine.specs.Memory.{memory_of, IsLaidOut};

use crate::check::{Reach, is_memory, look};
use crate::code::Code;
use crate::fetch::{fetch, fetch_line};
use crate::layout::is_ept;
use crate::memory::Memory;
use crate::pages::Pages;
use fx_base::DeviceOp;
use fx_cpu::finish::complete;
use fx_cpu::need::{Need, need_of};
use fx_cpu::registers::{Regs, down, is_held, up};
use fx_cpu::trap::Trap;
use fx_image::{Comp, Image};
use fx_machine_model::fetched::Fetched;
use fx_machine_model::layout::is_keyed;
use fx_machine_model::stop::Stop;
use fx_vm_pages::access::{Access, Refusal};
use fx_vm_pages::entry::Pkru;
use fx_word_ops::flags::{Flags, LogicOp};
use fx_word_ops::sums::{add, logic, sub};
use fx_x64_forms::inst::{AluOp, Inst};
use fx_x64_forms::operand::{Reg, Width};

/// What came of an instruction.
#[derive(Clone, Copy, Debug, PartialEq, Eq)]
pub enum Act {
    /// It is done.
    Done,
    /// It is this operation on a device, which isn't made yet, and nothing has changed. The value of a
    /// load isn't known yet.
    Operation {
        inst: Inst,
        length: u64,
        op: DeviceOp,
    },
    /// It stops the machine, and nothing has changed.
    Halts(Stop),
}

/// The compartment whose PKRU value is held, of those from number c on, 255 where none is.
fn holder(compartments: &[Comp], c: u8, pkru: u32) -> u8
    requires { c + length compartments.now < 256 }
    ensures { result ≡ holder compartments.now c pkru }
{
    match compartments {
        [] => 255,
        [compartment, rest @ ..] => {
            if compartment.pkru == pkru {
                c
            } else {
                holder(rest, c + 1, pkru)
            }
        }
    }
}

/// Who acts: the virtual machine where each compartment is one, the compartment whose PKRU value is held
/// where keys part them, else 255.
fn domain_of(image: &Image, vcpu: u8, pkru: Pkru) -> u8
    requires { IsImage image.now }
    ensures { result ≡ domain_of image.now vcpu pkru }
{
    if is_ept(image) {
        vcpu
    } else if is_keyed(image) {
        holder(image.compartments.as_slice(), 0, pkru.0)
    } else {
        255
    }
}

/// The stop of HLT, by RAX.
fn halted(r: &Regs) -> Stop
    ensures { result ≡ trapped Trap.Halt r.now }
{
    match r.get(Reg::Rax) {
        0 => Stop::Exit(r.get(Reg::Rdi).cast_signed()),
        1 => Stop::StackFull {
            thread: r.get(Reg::Rdi),
            stack: r.get(Reg::Rsi),
        },
        2 => Stop::BadThread,
        3 => Stop::ThreadsFull,
        _ => Stop::Aborted,
    }
}

/// The stop of an instruction that isn't done, whatever memory says.
fn trapped(trap: Trap, r: &Regs) -> Stop
    ensures { result ≡ trapped trap r.now }
{
    match trap {
        Trap::Halt => halted(r),
        Trap::Protection => Stop::Protection,
        Trap::Divide => Stop::Divide,
        Trap::Page { .. } | Trap::Invalid | Trap::Outside(_) => Stop::Invalid,
    }
}

/// The stop of a refused access.
fn refused(image: &Image, vcpu: u8, pkru: Pkru, access: Access, first: (u64, Refusal)) -> Stop
    requires { IsImage image.now }
    ensures { result ≡ refused image.now vcpu pkru access first }
{
    Stop::Page {
        vcpu,
        domain: domain_of(image, vcpu, pkru),
        address: first.0,
        access,
        refusal: first.1,
    }
}

/// Puts the registers as they are after an instruction of a length, where v was read.
#[inline]
pub fn finish(inst: &Inst, len: u64, r: &mut Regs, v: u64)
    ensures { r.new ≡ finish inst.now (past r.old len) v }
{
    r.rip = r.rip.wrapping_add(len);
    complete(inst, r, v);
}

/// The operation of an access to a device's register.
fn operation(device: u16, address: u64, write: bool, value: u64) -> DeviceOp
    ensures { result ≡ operation device address write value }
{
    DeviceOp {
        device,
        reg: (address % 4096 / 8) as u16,
        write,
        value,
    }
}

/// Does an instruction that loads.
fn read(
    image: &Image,
    pages: &mut Pages,
    memory: &Memory,
    vcpu: u8,
    r: &mut Regs,
    inst: &Inst,
    length: u64,
    width: Width,
    address: u64,
) -> Act
    requires whole { IsImage image.now }
    requires few { vcpu < 16 }
    requires agree { Agrees image.now pages.old }
    requires asks { need inst.now (past r.old length) ≡ Need.Reads width address }
    ensures acts { ActsBy
        (λ answers. perform image.now vcpu inst.now length r.old
        (world (memory_of image.now memory.now) answers))
        r.old (memory_of image.now memory.now) result r.new (memory_of image.now memory.now) }
    ensures agree { Agrees image.now pages.new }
{
    match look(
        pages,
        image,
        vcpu,
        r.pkru,
        Access::Read,
        address,
        width.bytes(),
    ) {
        Reach::Memory => {
            let value = memory.word_at(image, width, address);
            finish(inst, length, r, value);
            Act::Done
        }
        Reach::Device(device) => Act::Operation {
            inst: *inst,
            length,
            op: operation(device, address, false, 0),
        },
        Reach::Refused(first) => Act::Halts(refused(image, vcpu, r.pkru, Access::Read, first)),
    }
}

/// Does an instruction that stores.
fn write(
    image: &Image,
    pages: &mut Pages,
    memory: &mut Memory,
    vcpu: u8,
    r: &mut Regs,
    inst: &Inst,
    length: u64,
    width: Width,
    address: u64,
    value: u64,
) -> Act
    requires whole { IsImage image.now }
    requires few { vcpu < 16 }
    requires agree { Agrees image.now pages.old }
    requires laid { IsLaidOut image.now memory.old }
    requires asks { need inst.now (past r.old length) ≡ Need.Writes width address value }
    ensures acts { ActsBy
        (λ answers. perform image.now vcpu inst.now length r.old
        (world (memory_of image.now memory.old) answers))
        r.old (memory_of image.now memory.old) result r.new (memory_of image.now memory.new) }
    ensures agree { Agrees image.now pages.new }
    ensures laid { IsLaidOut image.now memory.new }
{
    match look(
        pages,
        image,
        vcpu,
        r.pkru,
        Access::Write,
        address,
        width.bytes(),
    ) {
        Reach::Memory => {
            memory.store(width, address, value);
            finish(inst, length, r, 0);
            Act::Done
        }
        Reach::Device(device) => Act::Operation {
            inst: *inst,
            length,
            op: operation(device, address, true, value),
        },
        Reach::Refused(first) => Act::Halts(refused(image, vcpu, r.pkru, Access::Write, first)),
    }
}

/// Does an instruction of a length.
fn perform(
    image: &Image,
    pages: &mut Pages,
    memory: &mut Memory,
    vcpu: u8,
    r: &mut Regs,
    inst: &Inst,
    length: u64,
) -> Act
    requires whole { IsImage image.now }
    requires few { vcpu < 16 }
    requires agree { Agrees image.now pages.old }
    requires laid { IsLaidOut image.now memory.old }
    ensures acts { ActsBy
        (λ answers. perform image.now vcpu inst.now length r.old
        (world (memory_of image.now memory.old) answers))
        r.old (memory_of image.now memory.old) result r.new (memory_of image.now memory.new) }
    ensures agree { Agrees image.now pages.new }
    ensures laid { IsLaidOut image.now memory.new }
{
    match need_of(inst, r.rip.wrapping_add(length), r) {
        Need::Quiet => {
            finish(inst, length, r, 0);
            Act::Done
        }
        Need::Reads { w, address } => {
            read(image, pages, memory, vcpu, r, inst, length, w, address)
        }
        Need::Writes { w, address, value } => write(
            image, pages, memory, vcpu, r, inst, length, w, address, value,
        ),
        Need::Stops(trap) => Act::Halts(trapped(trap, r)),
    }
}

/// Does the instruction at RIP, whose bytes are fetched one at a time.
#[inline(never)]
fn instruct_by_byte(
    image: &Image,
    pages: &mut Pages,
    memory: &mut Memory,
    vcpu: u8,
    r: &mut Regs,
) -> Act
    requires whole { IsImage image.now }
    requires few { vcpu < 16 }
    requires agree { Agrees image.now pages.old }
    requires laid { IsLaidOut image.now memory.old }
    ensures acts { ActsBy (λ answers. move image.now vcpu r.old (world (memory_of image.now memory.old) answers)) r.old (memory_of image.now memory.old) result r.new (memory_of image.now memory.new) }
    ensures agree { Agrees image.now pages.new }
    ensures laid { IsLaidOut image.now memory.new }
{
    match fetch(image, pages, memory, vcpu, r) {
        Fetched::Found { inst, length } => { perform(image, pages, memory, vcpu, r, &inst, length) }
        Fetched::RefusedAt { first } => {
            Act::Halts(refused(image, vcpu, r.pkru, Access::Fetch, first))
        }
        Fetched::Unspelled => Act::Halts(Stop::Invalid),
    }
}

/// Does the instruction at RIP.
pub fn instruct(
    image: &Image,
    code: &Code,
    pages: &mut Pages,
    memory: &mut Memory,
    vcpu: u8,
    r: &mut Regs,
) -> Act
    requires whole { IsImage image.now }
    requires decoded { IsDecoded image.now code.now }
    requires few { vcpu < 16 }
    requires agree { Agrees image.now pages.old }
    requires laid { IsLaidOut image.now memory.old }
    ensures acts { ActsBy (λ answers. move image.now vcpu r.old (world (memory_of image.now memory.old) answers)) r.old (memory_of image.now memory.old) result r.new (memory_of image.now memory.new) }
    ensures agree { Agrees image.now pages.new }
    ensures laid { IsLaidOut image.now memory.new }
{
    match fetch_line(image, code, pages, vcpu, r) {
        Some((inst, length)) => perform(image, pages, memory, vcpu, r, inst, length),
        None => instruct_by_byte(image, pages, memory, vcpu, r),
    }
}

/// Reads a word, if it is in memory in one page and may be read.
#[inline(always)]
fn load(
    image: &Image,
    pages: &mut Pages,
    memory: &Memory,
    vcpu: u8,
    pkru: Pkru,
    width: Width,
    address: u64,
) -> Option<u64>
    requires whole { IsImage image.now }
    requires few { vcpu < 16 }
    requires agree { Agrees image.now pages.old }
    ensures made { IfSome result (λ value. Accesses image.now vcpu pkru (memory_of image.now memory.now) (Need.Reads width address) value (memory_of image.now memory.now)) }
    ensures agree { Agrees image.now pages.new }
{
    if !is_memory(
        pages,
        image,
        vcpu,
        pkru,
        Access::Read,
        address,
        width.bytes(),
    ) {
        return None;
    }
    Some(memory.word_at(image, width, address))
}

/// Stores a word, if its place is in memory in one page and may be written, and answers whether it did.
#[inline(always)]
fn store(
    image: &Image,
    pages: &mut Pages,
    memory: &mut Memory,
    vcpu: u8,
    pkru: Pkru,
    width: Width,
    address: u64,
    value: u64,
) -> bool
    requires whole { IsImage image.now }
    requires few { vcpu < 16 }
    requires agree { Agrees image.now pages.old }
    requires laid { IsLaidOut image.now memory.old }
    ensures made { IsTrue result → Accesses image.now vcpu pkru (memory_of image.now memory.old) (Need.Writes width address value) 0 (memory_of image.now memory.new) }
    ensures kept { result ≡ false → memory.new ≡ memory.old }
    ensures agree { Agrees image.now pages.new }
    ensures laid { IsLaidOut image.now memory.new }
{
    if !is_memory(
        pages,
        image,
        vcpu,
        pkru,
        Access::Write,
        address,
        width.bytes(),
    ) {
        return false;
    }
    memory.store(width, address, value);
    true
}

/// Makes an access, if it is to memory in one page and permitted, and gives what was read, 0 where nothing
/// was. Where it gives nothing, nothing has changed.
fn access(
    image: &Image,
    pages: &mut Pages,
    memory: &mut Memory,
    vcpu: u8,
    pkru: Pkru,
    need: Need,
) -> Option<u64>
    requires whole { IsImage image.now }
    requires few { vcpu < 16 }
    requires agree { Agrees image.now pages.old }
    requires laid { IsLaidOut image.now memory.old }
    ensures made { IfSome result (λ value. Accesses image.now vcpu pkru (memory_of image.now memory.old) need value (memory_of image.now memory.new)) }
    ensures kept { result ≡ None → memory.new ≡ memory.old }
    ensures agree { Agrees image.now pages.new }
    ensures laid { IsLaidOut image.now memory.new }
{
    match need {
        Need::Quiet => Some(0),
        Need::Reads { w, address } => load(image, pages, memory, vcpu, pkru, w, address),
        Need::Writes { w, address, value } => {
            if store(image, pages, memory, vcpu, pkru, w, address, value) {
                Some(0)
            } else {
                None
            }
        }
        Need::Stops(_) => None,
    }
}

/// Does an instruction of a length, if all that it asks for is an access to memory in one page, and
/// answers whether it is done. Where it isn't, nothing has changed.
#[inline(never)]
fn perform_whole(
    image: &Image,
    pages: &mut Pages,
    memory: &mut Memory,
    vcpu: u8,
    r: &mut Regs,
    inst: &Inst,
    length: u64,
) -> bool
    requires whole { IsImage image.now }
    requires few { vcpu < 16 }
    requires agree { Agrees image.now pages.old }
    requires laid { IsLaidOut image.now memory.old }
    ensures done { IsTrue result
        → ActsBy
        (λ answers. perform image.now vcpu inst.now length r.old
        (world (memory_of image.now memory.old) answers))
        r.old (memory_of image.now memory.old) Act.Done r.new
        (memory_of image.now memory.new) }
    ensures registers { result ≡ false → r.new ≡ r.old }
    ensures memory { result ≡ false → memory.new ≡ memory.old }
    ensures agree { Agrees image.now pages.new }
    ensures laid { IsLaidOut image.now memory.new }
{
    let need = need_of(inst, r.rip.wrapping_add(length), r);
    match access(image, pages, memory, vcpu, r.pkru, need) {
        Some(value) => {
            finish(inst, length, r, value);
            true
        }
        None => false,
    }
}

/// The result and the flags of an operation on words of 64 bits.
#[inline(always)]
fn alu_of(op: AluOp, a: u64, b: u64) -> (u64, Flags)
    ensures { result ≡ alu op Width.W64 a b }
{
    match op {
        AluOp::Add => add(Width::W64, a, b),
        AluOp::Sub | AluOp::Cmp => sub(Width::W64, a, b),
        AluOp::And | AluOp::Test => logic(Width::W64, LogicOp::And, a, b),
        AluOp::Or => logic(Width::W64, LogicOp::Or, a, b),
        AluOp::Xor => logic(Width::W64, LogicOp::Xor, a, b),
    }
}

/// Does an operation of a register of 64 bits and a number.
#[inline(always)]
fn operate_on(op: AluOp, dst: Reg, b: u64, r: &mut Regs)
    ensures { r.new ≡ kept op r.old dst (alu op Width.W64 (reg r.old dst) b) }
{
    let (value, flags) = alu_of(op, r.get(dst), b);
    r.flags = flags;
    match op {
        AluOp::Cmp | AluOp::Test => {}
        AluOp::Add | AluOp::Sub | AluOp::And | AluOp::Or | AluOp::Xor => r.set(dst, value),
    }
}

/// Does an instruction of a length that is a common one and asks nothing of memory, and answers whether it
/// is one. These are told apart here, so that each is one piece of code with what it is known to be.
#[inline(always)]
fn quiet(inst: &Inst, length: u64, r: &mut Regs) -> bool
    ensures done { IsTrue result → (need inst.now (past r.old length) ≡ Need.Quiet) × (r.new ≡ finish inst.now (past r.old length) 0) }
    ensures kept { result ≡ false → r.new ≡ r.old }
{
    let next = r.rip.wrapping_add(length);
    match *inst {
        Inst::Mov {
            w: Width::W64,
            dst,
            src,
        } => {
            r.rip = next;
            r.set(dst, r.get(src));
        }
        Inst::MovImm { dst, imm } => {
            r.rip = next;
            r.set(dst, i64::from(imm).cast_unsigned());
        }
        Inst::Lea { dst, mem } => {
            r.rip = next;
            r.set(dst, r.address(mem));
        }
        Inst::Alu {
            op,
            w: Width::W64,
            dst,
            src,
        } => {
            r.rip = next;
            operate_on(op, dst, r.get(src), r);
        }
        Inst::AluImm {
            op,
            w: Width::W64,
            dst,
            imm,
        } => {
            r.rip = next;
            operate_on(op, dst, i64::from(imm).cast_unsigned(), r);
        }
        Inst::Jcc { cond, rel } => {
            r.rip = next;
            if is_held(cond, r.flags) {
                r.jump(rel);
            }
        }
        Inst::Jmp { rel } => {
            r.rip = next;
            r.jump(rel);
        }
        _ => return false,
    }
    true
}

/// Reads a word of 64 bits for an instruction, if it is in memory in one page and may be read.
#[inline(always)]
fn load_word(
    image: &Image,
    pages: &mut Pages,
    memory: &Memory,
    vcpu: u8,
    r: &Regs,
    address: u64,
) -> Option<u64>
    requires whole { IsImage image.now }
    requires few { vcpu < 16 }
    requires agree { Agrees image.now pages.old }
    ensures made { IfSome result (λ value. Accesses image.now vcpu r.now.pkru (memory_of image.now memory.now) (Need.Reads Width.W64 address) value (memory_of image.now memory.now)) }
    ensures agree { Agrees image.now pages.new }
{
    load(image, pages, memory, vcpu, r.pkru, Width::W64, address)
}

/// Stores a word of 64 bits for an instruction, if its place is in memory in one page and may be written, and
/// answers whether it did.
#[inline(always)]
fn store_word(
    image: &Image,
    pages: &mut Pages,
    memory: &mut Memory,
    vcpu: u8,
    r: &Regs,
    address: u64,
    value: u64,
) -> bool
    requires whole { IsImage image.now }
    requires few { vcpu < 16 }
    requires agree { Agrees image.now pages.old }
    requires laid { IsLaidOut image.now memory.old }
    ensures made { IsTrue result → Accesses image.now vcpu r.now.pkru (memory_of image.now memory.old) (Need.Writes Width.W64 address value) 0 (memory_of image.now memory.new) }
    ensures kept { result ≡ false → memory.new ≡ memory.old }
    ensures agree { Agrees image.now pages.new }
    ensures laid { IsLaidOut image.now memory.new }
{
    store(
        image,
        pages,
        memory,
        vcpu,
        r.pkru,
        Width::W64,
        address,
        value,
    )
}

/// Does an instruction of a length, if it is a common one and its access, if it asks for one, is to memory in
/// one page, and answers whether it is done. Where it isn't, nothing has changed.
#[inline(always)]
fn perform_common(
    image: &Image,
    pages: &mut Pages,
    memory: &mut Memory,
    vcpu: u8,
    r: &mut Regs,
    inst: &Inst,
    length: u64,
) -> bool
    requires whole { IsImage image.now }
    requires few { vcpu < 16 }
    requires agree { Agrees image.now pages.old }
    requires laid { IsLaidOut image.now memory.old }
    ensures done { IsTrue result
        → ActsBy
        (λ answers. perform image.now vcpu inst.now length r.old
        (world (memory_of image.now memory.old) answers))
        r.old (memory_of image.now memory.old) Act.Done r.new
        (memory_of image.now memory.new) }
    ensures registers { result ≡ false → r.new ≡ r.old }
    ensures memory { result ≡ false → memory.new ≡ memory.old }
    ensures agree { Agrees image.now pages.new }
    ensures laid { IsLaidOut image.now memory.new }
{
    let next = r.rip.wrapping_add(length);
    match *inst {
        Inst::Load {
            w: Width::W64,
            dst,
            mem,
        } => {
            match load_word(image, pages, memory, vcpu, r, r.address(mem)) {
                Some(value) => {
                    r.rip = next;
                    r.set(dst, value);
                    true
                }
                None => false,
            }
        }
        Inst::Pop { reg } => match load_word(image, pages, memory, vcpu, r, r.gpr[4]) {
            Some(value) => {
                r.rip = next;
                r.gpr[4] = up(r.gpr[4]);
                r.set(reg, value);
                true
            }
            None => false,
        },
        Inst::Store {
            w: Width::W64,
            mem,
            src,
        } => {
            if store_word(image, pages, memory, vcpu, r, r.address(mem), r.get(src)) {
                r.rip = next;
                true
            } else {
                false
            }
        }
        Inst::Push { reg } => {
            if store_word(image, pages, memory, vcpu, r, down(r.gpr[4]), r.get(reg)) {
                r.rip = next;
                r.gpr[4] = down(r.gpr[4]);
                true
            } else {
                false
            }
        }
        _ => quiet(inst, length, r),
    }
}

/// Does an instruction of a length, if all that it asks for is an access to memory in one page, and
/// answers whether it is done. Where it isn't, nothing has changed. The common ones are tried first.
#[inline(always)]
fn perform_quick(
    image: &Image,
    pages: &mut Pages,
    memory: &mut Memory,
    vcpu: u8,
    r: &mut Regs,
    inst: &Inst,
    length: u64,
) -> bool
    requires whole { IsImage image.now }
    requires few { vcpu < 16 }
    requires agree { Agrees image.now pages.old }
    requires laid { IsLaidOut image.now memory.old }
    ensures done { IsTrue result
        → ActsBy
        (λ answers. perform image.now vcpu inst.now length r.old
        (world (memory_of image.now memory.old) answers))
        r.old (memory_of image.now memory.old) Act.Done r.new
        (memory_of image.now memory.new) }
    ensures registers { result ≡ false → r.new ≡ r.old }
    ensures memory { result ≡ false → memory.new ≡ memory.old }
    ensures agree { Agrees image.now pages.new }
    ensures laid { IsLaidOut image.now memory.new }
{
    if perform_common(image, pages, memory, vcpu, r, inst, length) {
        true
    } else {
        perform_whole(image, pages, memory, vcpu, r, inst, length)
    }
}

/// Does the instruction at RIP, if it was decoded beforehand and all that it asks for is an access to memory
/// in one page, as nearly all instructions do, and answers whether it is done. Where it isn't, nothing has
/// changed.
#[inline(always)]
pub fn instruct_whole(
    image: &Image,
    code: &Code,
    pages: &mut Pages,
    memory: &mut Memory,
    vcpu: u8,
    r: &mut Regs,
) -> bool
    requires whole { IsImage image.now }
    requires decoded { IsDecoded image.now code.now }
    requires few { vcpu < 16 }
    requires agree { Agrees image.now pages.old }
    requires laid { IsLaidOut image.now memory.old }
    ensures done { IsTrue result
        → ActsBy
        (λ answers. move image.now vcpu r.old
        (world (memory_of image.now memory.old) answers))
        r.old (memory_of image.now memory.old) Act.Done r.new
        (memory_of image.now memory.new) }
    ensures registers { result ≡ false → r.new ≡ r.old }
    ensures memory { result ≡ false → memory.new ≡ memory.old }
    ensures agree { Agrees image.now pages.new }
    ensures laid { IsLaidOut image.now memory.new }
{
    match fetch_line(image, code, pages, vcpu, r) {
        Some((inst, length)) => perform_quick(image, pages, memory, vcpu, r, inst, length),
        None => false,
    }
}
