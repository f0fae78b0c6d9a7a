//! The image's value.

ghost use Rattle.std.specs.Prelude.{◌≡◌, ◌≤◌, ◌<◌, ◌^◌, [], ◌∷◌, IfOk, length, replicate, ℕ, List};
ghost use Rattle.fx_image.specs.Rules.{IsImage};
ghost use Rattle.fx_early_image.specs.Code.{range_bytes, code_bytes};
ghost use Rattle.fx_early_image.specs.Faithful.{EarlyFaithful};
ghost use Rattle.fx_early_image.specs.Layout.{compartment, table, main_entry, start, laid_out, early_image};

use crate::code::{Code, assemble};
use crate::laws::images_are_faithful;
use fx_image::{Bytes, Comp, EntryRec, Image, List, Name, Obj, Section, Start};
use std::alloc::{AllocError, Global};

/// Where the code's first byte stands.
const CODE: u32 = 0x40_0000;

/// The first page of the first section.
const SECTIONS: u32 = 0x1_0000;

/// Where thread 0's stack begins its use.
const FIRST_RSP: u64 = 0x2000_4fe0;

/// The bytes of the start, behind which the abort stub stands.
const START_BYTES: u32 = 20;

/// A list of one.
fn single<T>(alloc: Global, item: T) -> Result<List<T>, AllocError>
where
    T: Drop,
    ensures { IfOk result (λ l. l ≡ item ∷ []) }
{
    let mut items = Vec::new(alloc);
    items.push(item)?;
    Ok(List::from_vec(items))
}

fn name(alloc: Global, bytes: &[u8]) -> Result<Name, AllocError>
    ensures { IfOk result (λ n. n ≡ bytes.now) }
{
    Ok(Name::from_vec(Vec::from_slice(alloc, bytes)?))
}

fn compartment(alloc: Global, range: u32) -> Result<Comp, AllocError>
    ensures { IfOk result (λ c. c ≡ compartment range) }
{
    let name = name(alloc, b"a")?;
    Ok(Comp {
        name,
        start: 0,
        len: range,
        pkru: 0,
    })
}

fn table(alloc: Global) -> Result<Obj, AllocError>
    ensures { IfOk result (λ o. o ≡ table) }
{
    let name = name(alloc, b".rt.a")?;
    Ok(Obj {
        name,
        section: 0,
        address: u64::from(SECTIONS) * 4096,
        size: 4096,
        initial: Bytes::from_vec(Vec::new(alloc)),
    })
}

fn main_entry(alloc: Global) -> Result<EntryRec, AllocError>
    ensures { IfOk result (λ e. e ≡ main_entry) }
{
    let name = name(alloc, b"main")?;
    Ok(EntryRec {
        name,
        compartment: 0,
        number: 0,
        callers: 0,
    })
}

/// The image of code whose compartment's range has at most four pages.
fn lay_out(alloc: Global, code: Code) -> Result<Image, AllocError>
    requires { code.range ≤ 16384 }
    ensures { IfOk result (λ i. i ≡ laid_out code.range code.bytes.items) }
{
    let range = code.range;
    let compartment = compartment(alloc, range)?;
    let section = Section {
        readers: 1,
        writers: 1,
        key: 0,
        page: SECTIONS,
        pages: 1,
    };
    let start = Start {
        rip: CODE + range,
        rsp: FIRST_RSP,
    };
    Ok(Image {
        version: 2,
        mechanism: 0,
        stack_pages: 4,
        threads: 16,
        scheduler: 0,
        home: 0,
        compartments: single(alloc, compartment)?,
        sections: single(alloc, section)?,
        code: Bytes::from_vec(code.bytes),
        literals: Bytes::from_vec(Vec::new(alloc)),
        objects: single(alloc, table(alloc)?)?,
        entries: single(alloc, main_entry(alloc)?)?,
        stubs: List::from_vec(Vec::new(alloc)),
        abort: range + START_BYTES,
        owners: [0; 16],
        starts: single(alloc, start)?,
    })
}

/// The image of a program that writes these constants, at most 1,000, to the console and returns. It
/// meets the field rules, and it is faithful to that program.
#[tactic(auto, unfolding(crate::specs::Layout::early_image))]
pub fn build(alloc: Global, constants: &[u8]) -> Result<Image, AllocError>
    requires few { length constants.now ≤ 1000 }
    ensures value { IfOk result (λ i. i ≡ early_image constants.now) }
    ensures rules { IfOk result (λ i. IsImage i) }
    ensures faithful { IfOk result (λ i. EarlyFaithful constants.now i) }
{
    images_are_faithful();
    let code = assemble(alloc, constants)?;
    let image = lay_out(alloc, code)?;
    Ok(image)
}
