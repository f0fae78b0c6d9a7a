//! Writing an image: its one spelling.

ghost use Rattle.std.specs.Prelude.{◌≡◌, ℕ, List, [], ◌∷◌, ◌++◌, ◌<◌, ◌^◌, length, OnOk, IfOk, IsTrue};
ghost use Rattle.std.specs.List.{All, flat_map};
ghost use Rattle.fx_image.specs.Spelling.{u16_spelling, u32_spelling, u64_spelling, name_spelling, block_spelling};
ghost use Rattle.fx_image.specs.Spelling.{HasRoom, pair_spelling, comp_spelling, section_spelling, obj_spelling};
ghost use Rattle.fx_image.specs.Spelling.{entry_spelling, stub_spelling, start_spelling};
ghost use Rattle.fx_image.specs.Spelling.{head_spelling, threads_spelling, tail_spelling, image_spelling};
ghost use Rattle.fx_image.specs.Rules.{IsImage};

use crate::forms::{Comp, EntryRec, Image, Obj, Section, Start, Stub};
use byteorder::{ByteOrder, LittleEndian};
use std::alloc::{AllocError, Global};

#[tactic(auto, unfolding(crate::specs::Spelling::u16_spelling))]
fn put_u16(out: &mut Vec<u8>, n: u16) -> Result<(), AllocError>
    ensures { OnOk result (out.new.items ≡ out.old.items ++ u16_spelling n) }
{
    let mut bytes = [0; 2];
    LittleEndian::write_u16(&mut bytes, n);
    out.extend_from_slice(&bytes)
}

#[tactic(auto, unfolding(crate::specs::Spelling::u32_spelling))]
fn put_u32(out: &mut Vec<u8>, n: u32) -> Result<(), AllocError>
    ensures { OnOk result (out.new.items ≡ out.old.items ++ u32_spelling n) }
{
    let mut bytes = [0; 4];
    LittleEndian::write_u32(&mut bytes, n);
    out.extend_from_slice(&bytes)
}

#[tactic(auto, unfolding(crate::specs::Spelling::u64_spelling))]
fn put_u64(out: &mut Vec<u8>, n: u64) -> Result<(), AllocError>
    ensures { OnOk result (out.new.items ≡ out.old.items ++ u64_spelling n) }
{
    let mut bytes = [0; 8];
    LittleEndian::write_u64(&mut bytes, n);
    out.extend_from_slice(&bytes)
}

fn put_name(out: &mut Vec<u8>, name: &[u8]) -> Result<(), AllocError>
    requires { length name.now < 256 }
    ensures { OnOk result (out.new.items ≡ out.old.items ++ name_spelling name.now) }
{
    out.push(name.len() as u8)?;
    out.extend_from_slice(name)
}

fn put_block(out: &mut Vec<u8>, bytes: &[u8]) -> Result<(), AllocError>
    requires { length bytes.now < 2 ^ 32 }
    ensures { OnOk result (out.new.items ≡ out.old.items ++ block_spelling bytes.now) }
{
    put_u32(out, bytes.len() as u32)?;
    out.extend_from_slice(bytes)
}

/// A record of one of the image's tables.
trait Written {
    /// Its bytes in an image of this version.
    ghost spelling: { ℕ → Self → List ℕ };
    /// Whether its lengths have room.
    ghost fits: { Self → Type 0 };

    fn put(&self, version: u16, out: &mut Vec<u8>) -> Result<(), AllocError>
        requires { fits self.now }
        ensures { OnOk result (out.new.items ≡ out.old.items ++ spelling version self.now) };
}

fn put_all<T: Written>(out: &mut Vec<u8>, version: u16, records: &[T]) -> Result<(), AllocError>
    requires { All T.fits records.now }
    ensures { OnOk result (out.new.items ≡ out.old.items ++ flat_map (T.spelling version) records.now) }
{
    for record in records {
        record.put(version, out)?;
    }
    Ok(())
}

impl Written for Comp {
    ghost spelling = { λ version c. comp_spelling c };

    ghost fits = { λ c. length c.name < 256 };

    fn put(&self, _version: u16, out: &mut Vec<u8>) -> Result<(), AllocError> {
        put_name(out, self.name.as_slice())?;
        put_u32(out, self.start)?;
        put_u32(out, self.len)?;
        put_u32(out, self.pkru)
    }
}

/// The readers and writers: in version 1 one set for both.
fn put_pair(out: &mut Vec<u8>, version: u16, readers: u16, writers: u16) -> Result<(), AllocError>
    ensures { OnOk result (out.new.items ≡ out.old.items ++ pair_spelling version readers writers) }
{
    if version != 1 {
        put_u16(out, readers)?;
    }
    put_u16(out, writers)
}

impl Written for Section {
    ghost spelling = { section_spelling };

    ghost fits = { λ s. Unit {0} };

    fn put(&self, version: u16, out: &mut Vec<u8>) -> Result<(), AllocError> {
        put_pair(out, version, self.readers, self.writers)?;
        out.push(self.key)?;
        put_u32(out, self.page)?;
        put_u32(out, self.pages)
    }
}

impl Written for Obj {
    ghost spelling = { λ version o. obj_spelling o };

    ghost fits = { HasRoom };

    fn put(&self, _version: u16, out: &mut Vec<u8>) -> Result<(), AllocError> {
        put_name(out, self.name.as_slice())?;
        put_u16(out, self.section)?;
        put_u64(out, self.address)?;
        put_u32(out, self.size)?;
        put_block(out, self.initial.as_slice())
    }
}

impl Written for EntryRec {
    ghost spelling = { λ version e. entry_spelling e };

    ghost fits = { λ e. length e.name < 256 };

    fn put(&self, _version: u16, out: &mut Vec<u8>) -> Result<(), AllocError> {
        put_name(out, self.name.as_slice())?;
        out.push(self.compartment)?;
        put_u16(out, self.number)?;
        put_u16(out, self.callers)
    }
}

impl Written for Stub {
    ghost spelling = { λ version s. stub_spelling s };

    ghost fits = { λ s. Unit {0} };

    fn put(&self, _version: u16, out: &mut Vec<u8>) -> Result<(), AllocError> {
        out.push(self.from)?;
        out.push(self.to)?;
        put_u16(out, self.entry)?;
        put_u32(out, self.offset)?;
        put_u32(out, self.first)?;
        put_u32(out, self.second)
    }
}

impl Written for Start {
    ghost spelling = { λ version s. start_spelling s };

    ghost fits = { λ s. Unit {0} };

    fn put(&self, _version: u16, out: &mut Vec<u8>) -> Result<(), AllocError> {
        put_u32(out, self.rip)?;
        put_u64(out, self.rsp)
    }
}

/// The fields up to the compartment of `main`.
fn put_head(out: &mut Vec<u8>, i: &Image) -> Result<(), AllocError>
    requires { length i.now.compartments < 256 }
    ensures { OnOk result (out.new.items ≡ out.old.items ++ head_spelling i.now) }
{
    out.extend_from_slice(b"FXIM")?;
    put_u16(out, i.version)?;
    out.push(i.mechanism)?;
    out.push(i.compartments.len() as u8)?;
    out.push(i.stack_pages)?;
    put_threads(out, i.version, i.threads)?;
    out.push(i.scheduler)?;
    out.push(i.home)?;
    Ok(())
}

/// The number of threads, which version 1 leaves out.
fn put_threads(out: &mut Vec<u8>, version: u16, threads: u8) -> Result<(), AllocError>
    ensures { OnOk result (out.new.items ≡ out.old.items ++ threads_spelling version threads) }
{
    if version != 1 {
        out.push(threads)?;
    }
    Ok(())
}

/// A table whose count has two bytes.
fn put_table<T: Written>(out: &mut Vec<u8>, version: u16, records: &[T]) -> Result<(), AllocError>
    requires count { length records.now < 2 ^ 16 }
    requires each { All T.fits records.now }
    ensures { OnOk result (out.new.items ≡ out.old.items ++ (u16_spelling (length records.now) ++ flat_map (T.spelling version) records.now)) }
{
    put_u16(out, records.len() as u16)?;
    put_all(out, version, records)
}

fn put_objects(out: &mut Vec<u8>, version: u16, objects: &[Obj]) -> Result<(), AllocError>
    requires count { length objects.now < 2 ^ 32 }
    requires each { All HasRoom objects.now }
    ensures { OnOk result (out.new.items ≡ out.old.items ++ (u32_spelling (length objects.now) ++ flat_map obj_spelling objects.now)) }
{
    put_u32(out, objects.len() as u32)?;
    put_all(out, version, objects)
}

/// The fields from the abort stub on.
fn put_tail(out: &mut Vec<u8>, i: &Image) -> Result<(), AllocError>
    requires { length i.now.starts < 256 }
    ensures { OnOk result (out.new.items ≡ out.old.items ++ tail_spelling i.now) }
{
    put_u32(out, i.abort)?;
    out.extend_from_slice(&i.owners)?;
    out.push(i.starts.len() as u8)?;
    put_all(out, i.version, i.starts.as_slice())
}

/// The one spelling of an image, in the image's own version.
pub fn print(alloc: Global, i: &Image) -> Result<Vec<u8>, AllocError>
    requires { IsImage i.now }
    ensures { IfOk result (λ v. v.items ≡ image_spelling i.now) }
{
    let mut out = Vec::new(alloc);
    put_head(&mut out, i)?;
    put_all(&mut out, i.version, i.compartments.as_slice())?;
    put_table(&mut out, i.version, i.sections.as_slice())?;
    put_block(&mut out, i.code.as_slice())?;
    put_block(&mut out, i.literals.as_slice())?;
    put_objects(&mut out, i.version, i.objects.as_slice())?;
    put_table(&mut out, i.version, i.entries.as_slice())?;
    put_table(&mut out, i.version, i.stubs.as_slice())?;
    put_tail(&mut out, i)?;
    Ok(out)
}
