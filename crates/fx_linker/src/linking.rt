//! The image of parts.

ghost use Rattle.std.specs.Prelude.{◌≡◌, ◌≢◌, Ok, Err, IfOk, All, MatchResult};
ghost use Rattle.fx_linker.specs.Linked.{IsLinkable, AreRows, inner_reach, outer_reach, code_of, image_at, linked_image};
ghost use Rattle.fx_linker.specs.declared.error.LinkError.TheVariants.{OutOfMemory};

use crate::code::{put_range, put_ranges};
use crate::compartments::{comps, mechanism_number, narrow, owners, sections_of};
use crate::entries::{entry_numbers, entry_places, home};
use crate::error::LinkError;
use crate::layout::{Layout, function_places, layout_of, place};
use crate::literals::literals;
use crate::objects::objects;
use crate::parts::Parts;
use crate::reach::Reach;
use crate::starts::{placed_stubs, starts};
use fx_c_ast::checked::TProgram;
use fx_config::Config;
use fx_image::{Bytes, EntryRec, EntryRecs, Image, List, Name, VERSION};
use fx_sections::Placement;
use std::alloc::{AllocError, Global};

/// The most bytes of code.
const LIMIT: u64 = 1_048_576;

/// The threads of an image.
const THREADS: u8 = 16;

/// What the compartments' pieces reach: a function's first piece.
fn inner_reach(alloc: Global, parts: &Parts, p: &TProgram, at: &Layout) -> Result<Reach, AllocError>
    ensures { IfOk result (λ r. r ≡ inner_reach parts.now p.now at.now) }
{
    let spots = parts.spots.as_slice();
    Ok(Reach {
        functions: function_places(alloc, at, spots)?,
        numbers: entry_numbers(alloc, p, spots)?,
        runtime: copied(alloc, at.runtime.as_slice())?,
    })
}

/// What the runtime's pieces reach: the jump to a function in the entry table of its compartment.
fn outer_reach(alloc: Global, parts: &Parts, p: &TProgram, at: &Layout) -> Result<Reach, AllocError>
    ensures { IfOk result (λ r. r ≡ outer_reach parts.now p.now at.now) }
{
    let spots = parts.spots.as_slice();
    let numbers = entry_numbers(alloc, p, spots)?;
    Ok(Reach {
        functions: entry_places(alloc, at, numbers.as_slice(), spots)?,
        numbers,
        runtime: copied(alloc, at.runtime.as_slice())?,
    })
}

fn copied(alloc: Global, places: &[u64]) -> Result<List<u64>, AllocError>
    ensures { IfOk result (λ v. v ≡ places.now) }
{
    Ok(List::from_vec(Vec::from_slice(alloc, places)?))
}

/// The compartments' ranges in order, and then the runtime's.
fn code(alloc: Global, parts: &Parts, p: &TProgram, at: &Layout) -> Result<Bytes, AllocError>
    requires ranges { All AreRows parts.now.ranges }
    requires runtime { AreRows parts.now.runtime }
    ensures { IfOk result (λ v. v ≡ code_of parts.now p.now at.now) }
{
    let inner = inner_reach(alloc, parts, p, at)?;
    let outer = outer_reach(alloc, parts, p, at)?;
    let mut out = Vec::new(alloc);
    let ranges = parts.ranges.as_slice();
    put_ranges(alloc, parts, &inner, at.ranges.as_slice(), ranges, &mut out)?;
    let runtime = parts.runtime.as_slice();
    put_range(
        alloc,
        parts,
        &outer,
        at.runtime.as_slice(),
        runtime,
        &mut out,
    )?;
    Ok(Bytes::from_vec(out))
}

fn copied_entry(alloc: Global, entry: &EntryRec) -> Result<EntryRec, AllocError>
    ensures { IfOk result (λ e. e ≡ entry.now) }
{
    Ok(EntryRec {
        name: Name::from_vec(Vec::from_slice(alloc, entry.name.as_slice())?),
        compartment: entry.compartment,
        number: entry.number,
        callers: entry.callers,
    })
}

fn copied_entries(alloc: Global, entries: &[EntryRec]) -> Result<EntryRecs, AllocError>
    ensures { IfOk result (λ v. v ≡ entries.now) }
{
    let mut found = Vec::new(alloc);
    for entry in entries {
        found.push(copied_entry(alloc, entry)?)?;
    }
    Ok(List::from_vec(found))
}

/// The image of parts that stand at these places.
fn image(
    alloc: Global,
    parts: &Parts,
    p: &TProgram,
    places: &Placement,
    c: &Config,
    at: &Layout,
) -> Result<Image, AllocError>
    requires { IsLinkable parts.now p.now places.now c.now }
    ensures { IfOk result (λ i. i ≡ image_at parts.now p.now places.now c.now at.now) }
{
    let home = home(parts.spots.as_slice(), p.main as usize);
    let compartments = c.compartments.as_slice();
    let sections = sections_of(alloc, places.sections.as_slice())?;
    let runtime = at.runtime.as_slice();
    Ok(Image {
        version: VERSION,
        mechanism: mechanism_number(c.mechanism),
        stack_pages: c.stack_pages,
        threads: THREADS,
        scheduler: c.scheduler,
        home,
        compartments: comps(alloc, c, sections.as_slice(), at.starts.as_slice())?,
        sections,
        code: code(alloc, parts, p, at)?,
        literals: literals(alloc, places.literals.as_slice(), p.literals.as_slice())?,
        objects: objects(
            alloc,
            p,
            compartments,
            parts.map.initials.as_slice(),
            places,
        )?,
        entries: copied_entries(alloc, parts.entries.as_slice())?,
        stubs: placed_stubs(alloc, runtime, parts.map.stubs.as_slice())?,
        abort: narrow(place(runtime, parts.map.abort))?,
        owners: owners(compartments),
        starts: starts(alloc, c, home, runtime, parts.map.starts.as_slice())?,
    })
}

/// The image of parts that are made for a program, its placement and its configuration.
///
/// The compartments' pieces stand in order from 400000 (hexadecimal), then the runtime's, each filled up to
/// whole pages with HLT. Each displacement leads to what its piece names. The refusal of code that is too
/// long has its bytes.
#[tactic(auto, unfolding(crate::specs::Linked::image_of))]
pub fn link(
    alloc: Global,
    parts: &Parts,
    p: &TProgram,
    at: &Placement,
    c: &Config,
) -> Result<Image, LinkError>
    requires { IsLinkable parts.now p.now at.now c.now }
    ensures { MatchResult result (λ i. linked_image parts.now p.now at.now c.now ≡ Ok i) (λ e. e ≢ OutOfMemory → linked_image parts.now p.now at.now c.now ≡ Err e) }
{
    let places = layout_of(alloc, parts.ranges.as_slice(), parts.runtime.as_slice())?;
    if places.size > LIMIT {
        return Err(LinkError::CodeTooLong(places.size));
    }
    let image = image(alloc, parts, p, at, c, &places)?;
    Ok(image)
}
