//! Bringing an image to the version that is written today.

ghost use Rattle.std.specs.Prelude.{◌≡◌, IfOk};
ghost use Rattle.fx_image.specs.Rules.{IsImage};

use crate::forms::{Comp, Comps, EntryRec, EntryRecs, Image, Obj, Objs, VERSION};
use crate::list::{Bytes, List, Name};
use std::alloc::{AllocError, Global};

fn copy_name(alloc: Global, name: &Name) -> Result<Name, AllocError>
    ensures { IfOk result (λ copy. copy ≡ name.now) }
{
    Ok(Name::from_vec(Vec::from_slice(alloc, name.as_slice())?))
}

fn copy_bytes(alloc: Global, bytes: &Bytes) -> Result<Bytes, AllocError>
    ensures { IfOk result (λ copy. copy ≡ bytes.now) }
{
    Ok(Bytes::from_vec(Vec::from_slice(alloc, bytes.as_slice())?))
}

fn copy_comp(alloc: Global, c: &Comp) -> Result<Comp, AllocError>
    ensures { IfOk result (λ copy. copy ≡ c.now) }
{
    Ok(Comp {
        name: copy_name(alloc, &c.name)?,
        start: c.start,
        len: c.len,
        pkru: c.pkru,
    })
}

fn copy_obj(alloc: Global, o: &Obj) -> Result<Obj, AllocError>
    ensures { IfOk result (λ copy. copy ≡ o.now) }
{
    Ok(Obj {
        name: copy_name(alloc, &o.name)?,
        section: o.section,
        address: o.address,
        size: o.size,
        initial: copy_bytes(alloc, &o.initial)?,
    })
}

fn copy_entry(alloc: Global, e: &EntryRec) -> Result<EntryRec, AllocError>
    ensures { IfOk result (λ copy. copy ≡ e.now) }
{
    Ok(EntryRec {
        name: copy_name(alloc, &e.name)?,
        compartment: e.compartment,
        number: e.number,
        callers: e.callers,
    })
}

fn copy_comps(alloc: Global, comps: &Comps) -> Result<Comps, AllocError>
    ensures { IfOk result (λ copy. copy ≡ comps.now) }
{
    let mut copies = Vec::new(alloc);
    for c in comps.as_slice() {
        copies.push(copy_comp(alloc, c)?)?;
    }
    Ok(List::from_vec(copies))
}

fn copy_objs(alloc: Global, objects: &Objs) -> Result<Objs, AllocError>
    ensures { IfOk result (λ copy. copy ≡ objects.now) }
{
    let mut copies = Vec::new(alloc);
    for o in objects.as_slice() {
        copies.push(copy_obj(alloc, o)?)?;
    }
    Ok(List::from_vec(copies))
}

fn copy_entries(alloc: Global, entries: &EntryRecs) -> Result<EntryRecs, AllocError>
    ensures { IfOk result (λ copy. copy ≡ entries.now) }
{
    let mut copies = Vec::new(alloc);
    for e in entries.as_slice() {
        copies.push(copy_entry(alloc, e)?)?;
    }
    Ok(List::from_vec(copies))
}

/// A copy with version 2.
fn copy_image(alloc: Global, i: &Image) -> Result<Image, AllocError>
    ensures { IfOk result (λ j. j ≡ record i.now { version = 2 }) }
{
    Ok(Image {
        version: VERSION,
        mechanism: i.mechanism,
        stack_pages: i.stack_pages,
        threads: i.threads,
        scheduler: i.scheduler,
        home: i.home,
        compartments: copy_comps(alloc, &i.compartments)?,
        sections: List::from_vec(Vec::from_slice(alloc, i.sections.as_slice())?),
        code: copy_bytes(alloc, &i.code)?,
        literals: copy_bytes(alloc, &i.literals)?,
        objects: copy_objs(alloc, &i.objects)?,
        entries: copy_entries(alloc, &i.entries)?,
        stubs: List::from_vec(Vec::from_slice(alloc, i.stubs.as_slice())?),
        abort: i.abort,
        owners: i.owners,
        starts: List::from_vec(Vec::from_slice(alloc, i.starts.as_slice())?),
    })
}

/// The image with version 2 and nothing else changed. It runs as the image does.
pub fn migrate(alloc: Global, i: &Image) -> Result<Image, AllocError>
    requires { IsImage i.now }
    ensures value { IfOk result (λ j. j ≡ record i.now { version = 2 }) }
    ensures rules { IfOk result IsImage }
{
    copy_image(alloc, i)
}
