//! Where the parts of a program lie, one kind after the other.

ghost use Rattle.std.specs.Prelude.{◌≡◌, ◌<◌, ◌≤◌, ◌+◌, ◌*◌, ◌^◌, [], true, All, IfOk, OnOk, length, sum, map, List, ℕ};
ghost use Rattle.fx_c_ast.specs.CheckedTrees.{struct_types, ty_tree};
ghost use Rattle.fx_c_ast.specs.Layout.{known_layouts, IsSized, StructsAreSized};
ghost use Rattle.fx_c_ast.specs.declared.checked.TGlobal.{TGlobal};
ghost use Rattle.fx_sections.specs.declared.regions.Room.{Room};
ghost use Rattle.fx_sections.specs.declared.regions.GlobalSize.{GlobalSize};
ghost use Rattle.fx_sections.specs.Regions.{empty, with_objects, starts};
ghost use Rattle.fx_sections.specs.Pairs.{is_keyed};
ghost use Rattle.fx_sections.specs.Placement.{sized, opening, rooms_from, offsets, sections_from, total_pages, addresses, initial_total};
ghost use Rattle.fx_sections.specs.declared.placement.PlacedSection.{PlacedSection};

use crate::initials::initial_count;
use crate::pairs::{is_keyed, section_of};
use crate::placement::PlacedSection;
use crate::regions::{GlobalSize, Room, empty, page_count, with_object};
use fx_c_ast::checked::TProgram;
use fx_c_ast::layout::size_of;
use fx_c_ast::parsed::Bytes;
use fx_config::Mechanism;
use fx_grants::Pair;
use indexmap::IndexSet;
use std::alloc::{AllocError, Global};

/// The section and the bytes of each global, where `of` has the globals' pairs.
pub fn global_sizes(
    alloc: Global,
    p: &TProgram,
    pairs: &IndexSet<Pair>,
    of: &[Pair],
) -> Result<Vec<GlobalSize>, AllocError>
    requires structs { StructsAreSized (struct_types p.now.structs) }
    requires globals { All (λ (v : TGlobal). IsSized (known_layouts (struct_types p.now.structs)) (length p.now.structs) (ty_tree v.ty)) p.now.globals }
    requires same { length of.now ≡ length p.now.globals }
    requires some { 0 < length pairs.now.keys }
    ensures sized { IfOk result (λ v. v.items ≡ sized (struct_types p.now.structs) pairs.now.keys p.now.globals of.now) }
    ensures small { IfOk result (λ v. All (λ (o : GlobalSize). o.size ≤ 67108864) v.items) }
    ensures there { IfOk result (λ v. All (λ (o : GlobalSize). o.section < length pairs.now.keys) v.items) }
    ensures count { IfOk result (λ v. length v.items ≡ length p.now.globals) }
{
    let mut found = Vec::new(alloc);
    for (i, global) in p.globals.as_slice().iter().enumerate() {
        let size = size_of(p, &global.ty);
        found.push(GlobalSize {
            section: section_of(pairs, of[i]),
            size,
        })?;
    }
    Ok(found)
}

// The private section of a compartment begins with the runtime's object of 4,096 bytes.
fn opening(n: usize, k: usize) -> Room
    ensures value { result ≡ opening n k }
    ensures small { result.next ≤ 4128 }
    ensures ordered { result.end ≤ result.next }
{
    if k < n {
        with_object(empty(0), 4096)
    } else {
        empty(0)
    }
}

fn openings(alloc: Global, n: usize, count: usize) -> Result<Vec<Room>, AllocError>
    ensures rooms { IfOk result (λ v. v.items ≡ rooms_from n [] 0 count) }
    ensures small { IfOk result (λ v. All (λ (r : Room). r.next ≤ 4128) v.items) }
    ensures ordered { IfOk result (λ v. All (λ (r : Room). r.end ≤ r.next) v.items) }
{
    let mut rooms = Vec::new(alloc);
    for k in 0..count {
        rooms.push(opening(n, k))?;
    }
    Ok(rooms)
}

/// What each section takes, and how far behind its section's start each global begins.
#[derive(Drop)]
pub struct Filled {
    pub rooms: Vec<Room>,
    pub offsets: Vec<u64>,
}

/// The globals one after the other, each behind those of its section before it.
pub fn fill(
    alloc: Global,
    n: usize,
    count: usize,
    objects: &[GlobalSize],
) -> Result<Filled, AllocError>
    requires few { length objects.now ≤ 32000 }
    requires small { All (λ (o : GlobalSize). o.size ≤ 67108864) objects.now }
    requires there { All (λ (o : GlobalSize). o.section < count) objects.now }
    ensures rooms { IfOk result (λ f. f.rooms.items ≡ rooms_from n objects.now 0 count) }
    ensures offsets { IfOk result (λ f. f.offsets.items ≡ offsets n [] objects.now) }
    ensures ends { IfOk result (λ f. All (λ (r : Room). r.end < 2 ^ 42) f.rooms.items) }
    ensures starts { IfOk result (λ f. All (λ o. o < 2 ^ 42) f.offsets.items) }
{
    let mut rooms = openings(alloc, n, count)?;
    let offsets = fill_rooms(alloc, n, count, &mut rooms, objects)?;
    Ok(Filled { rooms, offsets })
}

// Puts the globals into rooms that have the runtime's objects alone.
fn fill_rooms(
    alloc: Global,
    n: usize,
    count: usize,
    rooms: &mut [Room],
    objects: &[GlobalSize],
) -> Result<Vec<u64>, AllocError>
    requires few { length objects.now ≤ 32000 }
    requires small { All (λ (o : GlobalSize). o.size ≤ 67108864) objects.now }
    requires there { All (λ (o : GlobalSize). o.section < count) objects.now }
    requires opened { rooms.old ≡ rooms_from n [] 0 count }
    requires low { All (λ (r : Room). r.next ≤ 4128) rooms.old }
    requires ordered { All (λ (r : Room). r.end ≤ r.next) rooms.old }
    ensures rooms { OnOk result (rooms.new ≡ rooms_from n objects.now 0 count) }
    ensures offsets { IfOk result (λ v. v.items ≡ offsets n [] objects.now) }
    ensures ends { OnOk result (All (λ (r : Room). r.end < 2 ^ 42) rooms.new) }
    ensures starts { IfOk result (λ v. All (λ o. o < 2 ^ 42) v.items) }
{
    let mut offsets = Vec::new(alloc);
    for object in objects {
        let room = rooms[object.section];
        offsets.push(room.next)?;
        rooms[object.section] = with_object(room, object.size);
    }
    Ok(offsets)
}

/// The pages of all sections.
pub fn total_pages(rooms: &[Room]) -> u64
    requires few { length rooms.now ≤ 65536 }
    requires small { All (λ (r : Room). r.end < 2 ^ 42) rooms.now }
    ensures pages { result ≡ total_pages rooms.now }
    ensures bounded { result ≤ 2 ^ 47 }
{
    let mut pages: u64 = 0;
    for room in rooms {
        pages += page_count(room.end);
    }
    pages
}

/// The sections page after page, each behind one unmapped page.
pub fn laid_out(
    alloc: Global,
    mechanism: Mechanism,
    pairs: &[Pair],
    rooms: &[Room],
) -> Result<Vec<PlacedSection>, AllocError>
    requires same { length pairs.now ≡ length rooms.now }
    requires few { length pairs.now ≤ 65536 }
    requires keys { is_keyed mechanism ≡ true → length pairs.now ≤ 14 }
    requires pages { total_pages rooms.now ≤ 16384 }
    requires small { All (λ (r : Room). r.end < 2 ^ 42) rooms.now }
    ensures sections { IfOk result (λ v. v.items ≡ sections_from mechanism 0 65536 pairs.now rooms.now) }
    ensures count { IfOk result (λ v. length v.items ≡ length pairs.now) }
{
    let keyed = is_keyed(mechanism);
    let mut sections = Vec::new(alloc);
    let mut page: u32 = 0x10000;
    for (k, pair) in pairs.iter().enumerate() {
        let pages = page_count(rooms[k].end) as u32;
        sections.push(PlacedSection {
            readers: pair.readers,
            writers: pair.writers,
            key: if keyed { k as u8 + 2 } else { 0 },
            page,
            pages,
        })?;
        page += pages + 1;
    }
    Ok(sections)
}

/// The address of each global.
pub fn addresses(
    alloc: Global,
    sections: &[PlacedSection],
    objects: &[GlobalSize],
    offsets: &[u64],
) -> Result<Vec<u64>, AllocError>
    requires same { length offsets.now ≡ length objects.now }
    requires there { All (λ (o : GlobalSize). o.section < length sections.now) objects.now }
    requires small { All (λ o. o < 2 ^ 42) offsets.now }
    ensures { IfOk result (λ v. v.items ≡ addresses sections.now objects.now offsets.now) }
{
    let mut found = Vec::new(alloc);
    for (i, object) in objects.iter().enumerate() {
        let section = &sections[object.section];
        found.push(4096 * u64::from(section.page) + offsets[i])?;
    }
    Ok(found)
}

/// The addresses of the literals, and the bytes that they take with those between them.
#[derive(Drop)]
pub struct Texts {
    pub addresses: Vec<u64>,
    pub bytes: u64,
}

/// The literals one after the other from 600000 (hexadecimal).
pub fn literals(alloc: Global, literals: &[Bytes]) -> Result<Texts, AllocError>
    requires few { length literals.now ≤ 32000 }
    requires small { sum (map (λ (l : List ℕ). length l) literals.now) < 2 ^ 62 }
    ensures addresses { IfOk result (λ t. t.addresses.items ≡ starts (empty 6291456) (map (λ (l : List ℕ). length l) literals.now)) }
    ensures bytes { IfOk result (λ t. t.bytes + 6291456 ≡ (with_objects (empty 6291456) (map (λ (l : List ℕ). length l) literals.now)).end) }
    ensures few_bytes { IfOk result (λ t. t.bytes < 2 ^ 63) }
{
    let mut room = empty(0x60_0000);
    let mut addresses = Vec::new(alloc);
    for literal in literals {
        addresses.push(room.next)?;
        room = with_object(room, literal.len() as u64);
    }
    Ok(Texts {
        addresses,
        bytes: room.end - 0x60_0000,
    })
}

/// The initial bytes of all globals.
pub fn initial_total(p: &TProgram) -> u64
    requires structs { StructsAreSized (struct_types p.now.structs) }
    requires globals { All (λ (v : TGlobal). IsSized (known_layouts (struct_types p.now.structs)) (length p.now.structs) (ty_tree v.ty)) p.now.globals }
    requires texts { initial_total (struct_types p.now.structs) p.now.globals < 2 ^ 62 }
    ensures { result ≡ initial_total (struct_types p.now.structs) p.now.globals }
{
    let mut bytes: u64 = 0;
    for global in p.globals.as_slice() {
        bytes += initial_count(size_of(p, &global.ty), &global.init) as u64;
    }
    bytes
}
