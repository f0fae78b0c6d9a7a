//! Reading the parts of an image: numbers, names and records, each from the front of the bytes.

ghost use Rattle.std.specs.Prelude.{◌≡◌, ℕ, ◌<◌, ◌^◌, List, length, IfOk};
ghost use Rattle.fx_image.specs.Reading.{Gives, Read, bytes_at, u8_at, u16_at, u32_at, u64_at, name_at, block_at};
ghost use Rattle.fx_image.specs.Reading.{comp_at, pair_at, section_at, obj_at, entry_at, stub_at, start_at, records_at, table_at, long_table_at};

use crate::error::ImageError;
use crate::forms::{Comp, EntryRec, Obj, Section, Start, Stub};
use crate::list::{Bytes, List, Name};
use std::alloc::Global;

/// A value that was read, and the bytes after it.
pub(crate) type Read<'a, T> = Result<(T, &'a [u8]), ImageError>;

#[tactic(auto, unfolding(crate::specs::Reading::bytes_at))]
pub(crate) fn read_bytes(n: usize, bytes: &[u8]) -> Read<'_, &[u8]>
    ensures len { IfOk result (λ x. length x.0.now ≡ n) }
    ensures value { Gives (λ x. (x.0.now, x.1.now)) result (bytes_at n bytes.now) }
{
    if bytes.len() < n {
        return Err(ImageError::Short);
    }
    Ok(bytes.split_at(n))
}

#[tactic(auto, unfolding(crate::specs::Reading::u8_at))]
pub(crate) fn read_u8(bytes: &[u8]) -> Read<'_, u8>
    ensures { Gives (λ x. (x.0, x.1.now)) result (u8_at bytes.now) }
{
    match bytes {
        [] => Err(ImageError::Short),
        [first, rest @ ..] => Ok((*first, rest)),
    }
}

#[tactic(auto, unfolding(crate::specs::Reading::u16_at))]
pub(crate) fn read_u16(bytes: &[u8]) -> Read<'_, u16>
    ensures { Gives (λ x. (x.0, x.1.now)) result (u16_at bytes.now) }
{
    let (b, rest) = read_bytes(2, bytes)?;
    Ok((u16::from_le_bytes([b[0], b[1]]), rest))
}

#[tactic(auto, unfolding(crate::specs::Reading::u32_at))]
pub(crate) fn read_u32(bytes: &[u8]) -> Read<'_, u32>
    ensures { Gives (λ x. (x.0, x.1.now)) result (u32_at bytes.now) }
{
    let (b, rest) = read_bytes(4, bytes)?;
    Ok((u32::from_le_bytes([b[0], b[1], b[2], b[3]]), rest))
}

#[tactic(auto, unfolding(crate::specs::Reading::u64_at))]
fn read_u64(bytes: &[u8]) -> Read<'_, u64>
    ensures { Gives (λ x. (x.0, x.1.now)) result (u64_at bytes.now) }
{
    let (b, rest) = read_bytes(8, bytes)?;
    let number = u64::from_le_bytes([b[0], b[1], b[2], b[3], b[4], b[5], b[6], b[7]]);
    Ok((number, rest))
}

#[tactic(auto, unfolding(crate::specs::Reading::name_at))]
fn read_name(alloc: Global, bytes: &[u8]) -> Read<'_, Name>
    ensures { Gives (λ x. (x.0, x.1.now)) result (name_at bytes.now) }
{
    let (len, rest) = read_u8(bytes)?;
    let (name, rest) = read_bytes(usize::from(len), rest)?;
    Ok((Name::from_vec(Vec::from_slice(alloc, name)?), rest))
}

/// A length in four bytes and as many bytes, which aren't copied.
#[tactic(auto, unfolding(crate::specs::Reading::block_at))]
pub(crate) fn read_block(bytes: &[u8]) -> Read<'_, &[u8]>
    ensures { Gives (λ x. (x.0.now, x.1.now)) result (block_at bytes.now) }
{
    let (len, rest) = read_u32(bytes)?;
    read_bytes(len as usize, rest)
}

/// A record of one of the image's tables.
pub(crate) trait Recorded: Sized + Drop {
    /// What is read in an image of this version.
    ghost read_at: { ℕ → List ℕ → Read Self };

    fn read(alloc: Global, version: u16, bytes: &[u8]) -> Read<'_, Self>
        ensures { Gives (λ x. (x.0, x.1.now)) result (read_at version bytes.now) };
}

/// So many records. A count that the bytes don't bear out takes no memory.
pub(crate) fn read_records<T: Recorded>(
    alloc: Global,
    version: u16,
    count: u32,
    bytes: &[u8],
) -> Read<'_, List<T>>
    ensures len { IfOk result (λ x. length x.0 ≡ count) }
    ensures value { Gives (λ x. (x.0, x.1.now)) result (records_at (T.read_at version) count bytes.now) }
{
    let mut records = Vec::new(alloc);
    let mut rest = bytes;
    for _ in 0..count {
        let (record, after) = T::read(alloc, version, rest)?;
        records.push(record)?;
        rest = after;
    }
    Ok((List::from_vec(records), rest))
}

/// A table whose count has two bytes.
#[tactic(auto, unfolding(crate::specs::Reading::table_at))]
pub(crate) fn read_table<T: Recorded>(
    alloc: Global,
    version: u16,
    bytes: &[u8],
) -> Read<'_, List<T>>
    ensures len { IfOk result (λ x. length x.0 < 2 ^ 16) }
    ensures value { Gives (λ x. (x.0, x.1.now)) result (table_at (T.read_at version) bytes.now) }
{
    let (count, rest) = read_u16(bytes)?;
    read_records(alloc, version, u32::from(count), rest)
}

/// A table whose count has four bytes.
#[tactic(auto, unfolding(crate::specs::Reading::long_table_at))]
pub(crate) fn read_long_table<T: Recorded>(
    alloc: Global,
    version: u16,
    bytes: &[u8],
) -> Read<'_, List<T>>
    ensures { Gives (λ x. (x.0, x.1.now)) result (long_table_at (T.read_at version) bytes.now) }
{
    let (count, rest) = read_u32(bytes)?;
    read_records(alloc, version, count, rest)
}

impl Recorded for Comp {
    ghost read_at = { λ version. comp_at };

    #[tactic(auto, unfolding(crate::specs::Reading::comp_at))]
    fn read(alloc: Global, _version: u16, bytes: &[u8]) -> Read<'_, Comp> {
        let (name, rest) = read_name(alloc, bytes)?;
        let (start, rest) = read_u32(rest)?;
        let (len, rest) = read_u32(rest)?;
        let (pkru, rest) = read_u32(rest)?;
        let comp = Comp {
            name,
            start,
            len,
            pkru,
        };
        Ok((comp, rest))
    }
}

/// Readers and writers: in version 1 one set for both.
#[tactic(auto, unfolding(crate::specs::Reading::pair_at))]
fn read_pair(version: u16, bytes: &[u8]) -> Read<'_, (u16, u16)>
    ensures { Gives (λ x. (x.0, x.1.now)) result (pair_at version bytes.now) }
{
    let (first, rest) = read_u16(bytes)?;
    if version == 1 {
        return Ok(((first, first), rest));
    }
    let (second, rest) = read_u16(rest)?;
    Ok(((first, second), rest))
}

impl Recorded for Section {
    ghost read_at = { section_at };

    #[tactic(auto, unfolding(crate::specs::Reading::section_at))]
    fn read(_alloc: Global, version: u16, bytes: &[u8]) -> Read<'_, Section> {
        let ((readers, writers), rest) = read_pair(version, bytes)?;
        let (key, rest) = read_u8(rest)?;
        let (page, rest) = read_u32(rest)?;
        let (pages, rest) = read_u32(rest)?;
        let section = Section {
            readers,
            writers,
            key,
            page,
            pages,
        };
        Ok((section, rest))
    }
}

impl Recorded for Obj {
    ghost read_at = { λ version. obj_at };

    #[tactic(auto, unfolding(crate::specs::Reading::obj_at))]
    fn read(alloc: Global, _version: u16, bytes: &[u8]) -> Read<'_, Obj> {
        let (name, rest) = read_name(alloc, bytes)?;
        let (section, rest) = read_u16(rest)?;
        let (address, rest) = read_u64(rest)?;
        let (size, rest) = read_u32(rest)?;
        let (initial, rest) = read_block(rest)?;
        let object = Obj {
            name,
            section,
            address,
            size,
            initial: Bytes::from_vec(Vec::from_slice(alloc, initial)?),
        };
        Ok((object, rest))
    }
}

impl Recorded for EntryRec {
    ghost read_at = { λ version. entry_at };

    #[tactic(auto, unfolding(crate::specs::Reading::entry_at))]
    fn read(alloc: Global, _version: u16, bytes: &[u8]) -> Read<'_, EntryRec> {
        let (name, rest) = read_name(alloc, bytes)?;
        let (compartment, rest) = read_u8(rest)?;
        let (number, rest) = read_u16(rest)?;
        let (callers, rest) = read_u16(rest)?;
        let entry = EntryRec {
            name,
            compartment,
            number,
            callers,
        };
        Ok((entry, rest))
    }
}

impl Recorded for Stub {
    ghost read_at = { λ version. stub_at };

    #[tactic(auto, unfolding(crate::specs::Reading::stub_at))]
    fn read(_alloc: Global, _version: u16, bytes: &[u8]) -> Read<'_, Stub> {
        let (from, rest) = read_u8(bytes)?;
        let (to, rest) = read_u8(rest)?;
        let (entry, rest) = read_u16(rest)?;
        let (offset, rest) = read_u32(rest)?;
        let (first, rest) = read_u32(rest)?;
        let (second, rest) = read_u32(rest)?;
        let stub = Stub {
            from,
            to,
            entry,
            offset,
            first,
            second,
        };
        Ok((stub, rest))
    }
}

impl Recorded for Start {
    ghost read_at = { λ version. start_at };

    #[tactic(auto, unfolding(crate::specs::Reading::start_at))]
    fn read(_alloc: Global, _version: u16, bytes: &[u8]) -> Read<'_, Start> {
        let (rip, rest) = read_u32(bytes)?;
        let (rsp, rest) = read_u64(rest)?;
        Ok((Start { rip, rsp }, rest))
    }
}
