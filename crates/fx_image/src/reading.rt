//! Reading an image: each field is taken whole, and then its rule is tried.

ghost use Rattle.std.specs.Prelude.{◌≡◌, ◌<◌, ◌≤◌, ◌^◌, length, IfOk, IsTrue, Ok, ℕ, List};
ghost use Rattle.fx_image.specs.ImageBytes.{ImageBytes};
ghost use Rattle.fx_image.specs.Fits.{FitsImage};
ghost use Rattle.fx_image.specs.declared.forms.Image.{Image};
ghost use Rattle.fx_image.specs.Rules.{is_count, are_stacks};
ghost use Rattle.fx_image.specs.Reading.{Gives, known_at, version_at, mechanism_at, count_at, threads_at, sizes_at, stacks_at, member_at};
ghost use Rattle.fx_image.specs.Reading.{head_at, compartments_at, sections_at, code_at, literals_at, objects_at};
ghost use Rattle.fx_image.specs.Reading.{entries_at, stubs_at, abort_at, owners_at, starts_at, finished, front_at, back_at, image_at};

use crate::compartments::{are_compartments, is_code};
use crate::error::ImageError;
use crate::fields::{
    Read, read_block, read_bytes, read_long_table, read_records, read_table, read_u8, read_u16,
    read_u32,
};
use crate::forms::{
    Comp, Comps, EntryRec, EntryRecs, Image, Obj, Objs, Section, Sections, Start, Starts, Stub,
    StubList, VERSION,
};
use crate::gates::{are_entries, are_stubs, is_in_runtime};
use crate::list::Bytes;
use crate::objects::are_objects;
use crate::sections::are_sections;
use crate::sequences::first_unlisted;
use crate::starts::{are_owners, are_starts};
use std::alloc::Global;

/// The fields up to the compartment of `main`, with the number of compartments.
#[derive(Clone, Copy)]
pub(crate) struct Head {
    pub version: u16,
    pub mechanism: u8,
    pub count: u8,
    pub stack_pages: u8,
    pub threads: u8,
    pub scheduler: u8,
    pub home: u8,
}

/// The fields before the entries.
#[derive(Drop)]
pub(crate) struct Front {
    pub head: Head,
    pub compartments: Comps,
    pub sections: Sections,
    pub code: Bytes,
    pub literals: Bytes,
    pub objects: Objs,
}

#[tactic(auto, unfolding(crate::specs::Reading::known_at))]
fn read_known(bytes: &[u8]) -> Read<'_, u16>
    ensures { Gives (λ x. (x.0, x.1.now)) result (known_at bytes.now) }
{
    let (version, rest) = read_u16(bytes)?;
    if !(version == 1 || version == 2) {
        return Err(ImageError::Version);
    }
    Ok((version, rest))
}

/// The magic bytes and the version.
#[tactic(auto, unfolding(crate::specs::Reading::version_at))]
fn read_version(bytes: &[u8]) -> Read<'_, u16>
    ensures { Gives (λ x. (x.0, x.1.now)) result (version_at bytes.now) }
{
    let (magic, rest) = read_bytes(4, bytes)?;
    if magic != b"FXIM".as_slice() {
        return Err(ImageError::Magic);
    }
    read_known(rest)
}

#[tactic(auto, unfolding(crate::specs::Reading::mechanism_at))]
fn read_mechanism(bytes: &[u8]) -> Read<'_, u8>
    ensures { Gives (λ x. (x.0, x.1.now)) result (mechanism_at bytes.now) }
{
    let (mechanism, rest) = read_u8(bytes)?;
    if mechanism > 3 {
        return Err(ImageError::Field(3));
    }
    Ok((mechanism, rest))
}

/// Whether there may be so many compartments.
fn is_count(mechanism: u8, count: u8) -> bool
    ensures value { result ≡ is_count mechanism count }
    ensures small { IsTrue result → count ≤ 16 }
{
    let most = if mechanism == 3 { 16 } else { 8 };
    1 <= count && count <= most
}

#[tactic(auto, unfolding(crate::specs::Reading::count_at))]
fn read_count(mechanism: u8, bytes: &[u8]) -> Read<'_, u8>
    ensures small { IfOk result (λ x. x.0 ≤ 16) }
    ensures value { Gives (λ x. (x.0, x.1.now)) result (count_at mechanism bytes.now) }
{
    let (count, rest) = read_u8(bytes)?;
    if !is_count(mechanism, count) {
        return Err(ImageError::Field(4));
    }
    Ok((count, rest))
}

/// The number of threads: 8 in version 1, which has no byte for it.
#[tactic(auto, unfolding(crate::specs::Reading::threads_at))]
fn read_threads(version: u16, bytes: &[u8]) -> Read<'_, u8>
    ensures { Gives (λ x. (x.0, x.1.now)) result (threads_at version bytes.now) }
{
    if version == 1 {
        return Ok((8, bytes));
    }
    read_u8(bytes)
}

/// The pages of a stack and the number of threads.
#[tactic(auto, unfolding(crate::specs::Reading::sizes_at))]
fn read_sizes(version: u16, bytes: &[u8]) -> Read<'_, (u8, u8)>
    ensures { Gives (λ x. (x.0, x.1.now)) result (sizes_at version bytes.now) }
{
    let (pages, rest) = read_u8(bytes)?;
    let (threads, rest) = read_threads(version, rest)?;
    Ok(((pages, threads), rest))
}

#[tactic(auto, unfolding(crate::specs::Reading::stacks_at))]
fn read_stacks(version: u16, bytes: &[u8]) -> Read<'_, (u8, u8)>
    ensures { Gives (λ x. (x.0, x.1.now)) result (stacks_at version bytes.now) }
{
    let ((pages, threads), rest) = read_sizes(version, bytes)?;
    if !are_stacks(version, pages, threads) {
        return Err(ImageError::Field(5));
    }
    Ok(((pages, threads), rest))
}

fn are_stacks(version: u16, pages: u8, threads: u8) -> bool
    ensures { result ≡ are_stacks version pages threads }
{
    1 <= pages && pages <= 64 && (threads == 8 || (threads == 16 && version != 1))
}

/// A compartment's number, in the field of this number.
#[tactic(auto, unfolding(crate::specs::Reading::member_at))]
fn read_member(field: u8, count: u8, bytes: &[u8]) -> Read<'_, u8>
    ensures { Gives (λ x. (x.0, x.1.now)) result (member_at field count bytes.now) }
{
    let (compartment, rest) = read_u8(bytes)?;
    if compartment >= count {
        return Err(ImageError::Field(field));
    }
    Ok((compartment, rest))
}

#[tactic(auto, unfolding(crate::specs::Reading::head_at))]
fn read_head(bytes: &[u8]) -> Read<'_, Head>
    ensures small { IfOk result (λ x. x.0.count ≤ 16) }
    ensures value { Gives (λ x. (x.0, x.1.now)) result (head_at bytes.now) }
{
    let (version, rest) = read_version(bytes)?;
    let (mechanism, rest) = read_mechanism(rest)?;
    let (count, rest) = read_count(mechanism, rest)?;
    let ((stack_pages, threads), rest) = read_stacks(version, rest)?;
    let (scheduler, rest) = read_member(6, count, rest)?;
    let (home, rest) = read_member(7, count, rest)?;
    let head = Head {
        version,
        mechanism,
        count,
        stack_pages,
        threads,
        scheduler,
        home,
    };
    Ok((head, rest))
}

#[tactic(auto, unfolding(crate::specs::Reading::compartments_at))]
fn read_compartments(alloc: Global, count: u8, bytes: &[u8]) -> Read<'_, Comps>
    ensures len { IfOk result (λ x. length x.0 ≡ count) }
    ensures value { Gives (λ x. (x.0, x.1.now)) result (compartments_at count bytes.now) }
{
    let (comps, rest) = read_records::<Comp>(alloc, VERSION, u32::from(count), bytes)?;
    if !are_compartments(comps.as_slice()) {
        return Err(ImageError::Field(8));
    }
    Ok((comps, rest))
}

#[tactic(auto, unfolding(crate::specs::Reading::sections_at))]
fn read_sections<'a>(
    alloc: Global,
    head: Head,
    comps: &Comps,
    bytes: &'a [u8],
) -> Read<'a, Sections>
    requires { length comps.now ≤ 16 }
    ensures { Gives (λ x. (x.0, x.1.now)) result (sections_at head comps.now bytes.now) }
{
    let (sections, rest) = read_table::<Section>(alloc, head.version, bytes)?;
    let good = are_sections(
        head.version,
        head.mechanism,
        head.scheduler,
        comps.as_slice(),
        sections.as_slice(),
    );
    if !good {
        return Err(ImageError::Field(9));
    }
    Ok((sections, rest))
}

#[tactic(auto, unfolding(crate::specs::Reading::code_at))]
fn read_code<'a>(alloc: Global, comps: &Comps, bytes: &'a [u8]) -> Read<'a, Bytes>
    requires { length comps.now ≤ 16 }
    ensures short { IfOk result (λ x. length x.0 < 2 ^ 32) }
    ensures value { Gives (λ x. (x.0, x.1.now)) result (code_at comps.now bytes.now) }
{
    let (code, rest) = read_block(bytes)?;
    if !is_code(comps.as_slice(), code) {
        return Err(ImageError::Field(10));
    }
    Ok((Bytes::from_vec(Vec::from_slice(alloc, code)?), rest))
}

#[tactic(auto, unfolding(crate::specs::Reading::literals_at))]
fn read_literals(alloc: Global, bytes: &[u8]) -> Read<'_, Bytes>
    ensures { Gives (λ x. (x.0, x.1.now)) result (literals_at bytes.now) }
{
    let (literals, rest) = read_block(bytes)?;
    if literals.len() > 8_388_608 {
        return Err(ImageError::Field(11));
    }
    Ok((Bytes::from_vec(Vec::from_slice(alloc, literals)?), rest))
}

#[tactic(auto, unfolding(crate::specs::Reading::objects_at))]
fn read_objects<'a>(alloc: Global, sections: &Sections, bytes: &'a [u8]) -> Read<'a, Objs>
    ensures { Gives (λ x. (x.0, x.1.now)) result (objects_at sections.now bytes.now) }
{
    let (objects, rest) = read_long_table::<Obj>(alloc, VERSION, bytes)?;
    if !are_objects(alloc, sections.as_slice(), objects.as_slice())? {
        return Err(ImageError::Field(12));
    }
    Ok((objects, rest))
}

#[tactic(auto, unfolding(crate::specs::Reading::entries_at))]
fn read_entries<'a>(alloc: Global, comps: &Comps, bytes: &'a [u8]) -> Read<'a, EntryRecs>
    requires { length comps.now ≤ 16 }
    ensures len { IfOk result (λ x. length x.0 < 2 ^ 16) }
    ensures value { Gives (λ x. (x.0, x.1.now)) result (entries_at comps.now bytes.now) }
{
    let (entries, rest) = read_table::<EntryRec>(alloc, VERSION, bytes)?;
    if !are_entries(comps.as_slice(), entries.as_slice()) {
        return Err(ImageError::Field(13));
    }
    Ok((entries, rest))
}

#[tactic(auto, unfolding(crate::specs::Reading::stubs_at))]
fn read_stubs<'a>(
    alloc: Global,
    mechanism: u8,
    comps: &Comps,
    code: &Bytes,
    entries: &EntryRecs,
    bytes: &'a [u8],
) -> Read<'a, StubList>
    requires few { length comps.now ≤ 16 }
    requires counted { length entries.now < 2 ^ 16 }
    ensures { Gives (λ x. (x.0, x.1.now)) result (stubs_at mechanism comps.now code.now entries.now bytes.now) }
{
    let (stubs, rest) = read_table::<Stub>(alloc, VERSION, bytes)?;
    let good = are_stubs(
        mechanism,
        comps.as_slice(),
        code.as_slice(),
        entries.as_slice(),
        stubs.as_slice(),
    );
    if !good {
        return Err(ImageError::Field(14));
    }
    Ok((stubs, rest))
}

#[tactic(auto, unfolding(crate::specs::Reading::abort_at))]
fn read_abort<'a>(comps: &Comps, code: &Bytes, bytes: &'a [u8]) -> Read<'a, u32>
    requires { length comps.now ≤ 16 }
    ensures { Gives (λ x. (x.0, x.1.now)) result (abort_at comps.now code.now bytes.now) }
{
    let (abort, rest) = read_u32(bytes)?;
    if !is_in_runtime(comps.as_slice(), code.as_slice(), abort) {
        return Err(ImageError::Field(15));
    }
    Ok((abort, rest))
}

#[tactic(auto, unfolding(crate::specs::Reading::owners_at))]
fn read_owners(count: usize, bytes: &[u8]) -> Read<'_, &[u8]>
    ensures rest { Gives (λ x. (x.0.now, x.1.now)) result (owners_at count bytes.now) }
    ensures len { IfOk result (λ x. length x.0.now ≡ 16) }
{
    let (owners, rest) = read_bytes(16, bytes)?;
    if !are_owners(count, owners) {
        return Err(ImageError::Field(16));
    }
    Ok((owners, rest))
}

#[tactic(auto, unfolding(crate::specs::Reading::starts_at))]
fn read_starts(alloc: Global, bytes: &[u8]) -> Read<'_, Starts>
    ensures { Gives (λ x. (x.0, x.1.now)) result (starts_at bytes.now) }
{
    let (count, rest) = read_u8(bytes)?;
    read_records::<Start>(alloc, VERSION, u32::from(count), rest)
}

/// The fields before the entries.
#[tactic(auto, unfolding(crate::specs::Reading::front_at))]
fn read_front(alloc: Global, bytes: &[u8]) -> Read<'_, Front>
    ensures value { Gives (λ x. (x.0, x.1.now)) result (front_at bytes.now) }
    ensures few { IfOk result (λ x. length x.0.compartments ≤ 16) }
    ensures short { IfOk result (λ x. length x.0.code < 2 ^ 32) }
{
    let (head, rest) = read_head(bytes)?;
    let (compartments, rest) = read_compartments(alloc, head.count, rest)?;
    let (sections, rest) = read_sections(alloc, head, &compartments, rest)?;
    let (code, rest) = read_code(alloc, &compartments, rest)?;
    let (literals, rest) = read_literals(alloc, rest)?;
    let (objects, rest) = read_objects(alloc, &sections, rest)?;
    let front = Front {
        head,
        compartments,
        sections,
        code,
        literals,
        objects,
    };
    Ok((front, rest))
}

/// The rule of the last field, and what is tried after all fields.
#[tactic(auto, unfolding(crate::specs::Reading::finished))]
fn finish(alloc: Global, image: Image, rest: &[u8]) -> Result<Image, ImageError>
    requires few { length image.compartments ≤ 16 }
    requires short { length image.code < 2 ^ 32 }
    ensures { Gives (λ x. x) result (finished image rest.now) }
{
    if !are_starts(&image) {
        return Err(ImageError::Field(17));
    }
    if !rest.is_empty() {
        return Err(ImageError::Extra);
    }
    match first_unlisted(alloc, image.stubs.as_slice(), image.code.as_slice())? {
        None => Ok(image),
        Some(at) => Err(ImageError::KeySequence(at)),
    }
}

/// The fields from the entries on.
#[tactic(auto, unfolding(crate::specs::Reading::back_at))]
fn read_back(alloc: Global, front: Front, bytes: &[u8]) -> Result<Image, ImageError>
    requires few { length front.compartments ≤ 16 }
    requires short { length front.code < 2 ^ 32 }
    ensures { Gives (λ x. x) result (back_at front bytes.now) }
{
    let (entries, rest) = read_entries(alloc, &front.compartments, bytes)?;
    let (stubs, rest) = read_stubs(
        alloc,
        front.head.mechanism,
        &front.compartments,
        &front.code,
        &entries,
        rest,
    )?;
    let (abort, rest) = read_abort(&front.compartments, &front.code, rest)?;
    let (owned, rest) = read_owners(front.compartments.len(), rest)?;
    let mut owners = [0; 16];
    owners.copy_from_slice(owned);
    let (starts, rest) = read_starts(alloc, rest)?;
    let image = Image {
        version: front.head.version,
        mechanism: front.head.mechanism,
        stack_pages: front.head.stack_pages,
        threads: front.head.threads,
        scheduler: front.head.scheduler,
        home: front.head.home,
        compartments: front.compartments,
        sections: front.sections,
        code: front.code,
        literals: front.literals,
        objects: front.objects,
        entries,
        stubs,
        abort,
        owners,
        starts,
    };
    finish(alloc, image, rest)
}

#[tactic(auto, unfolding(crate::specs::Reading::image_at))]
fn read_all(alloc: Global, bytes: &[u8]) -> Result<Image, ImageError>
    ensures { Gives (λ x. x) result (image_at bytes.now) }
{
    let (front, rest) = read_front(alloc, bytes)?;
    read_back(alloc, front, rest)
}

/// The image that the bytes spell, all of them, or the first refusal in the order of the fields. Each
/// field is taken whole before its rule is tried: where its bytes aren't there the answer is `Short`.
/// Takes memory in proportion to the bytes.
pub fn read(alloc: Global, bytes: &[u8]) -> Result<Image, ImageError>
    // What is read meets the rules, and the bytes are its spelling.
    ensures found { IfOk result (λ i. ImageBytes i bytes.now) }
    // What is spelled so is read, unless memory runs out.
    ensures only { (i : Image) → FitsImage i → ImageBytes i bytes.now → Gives (λ x. x) result (Ok i) }
    // Which refusal it is.
    ensures exact { Gives (λ x. x) result (image_at bytes.now) }
{
    read_all(alloc, bytes)
}

/// Each image has one spelling, and each spelling is one image's.
pub fn one_spelling()
    ensures spelling { (i : Image) → (x y : List ℕ) → ImageBytes i x → ImageBytes i y → x ≡ y }
    ensures image { (i j : Image) → (x : List ℕ) → FitsImage i → FitsImage j → ImageBytes i x → ImageBytes j x → i ≡ j }
{}
