//! The entry tables of compartments, and the records of their entries.

ghost use Rattle.std.specs.Prelude.{◌≡◌, ◌≤◌, ◌<◌, ◌^◌, ◌++◌, ◌&&◌, ◌==◌, not, IfOk, OnOk, length, replicate, slice_index, slice_get, bytes_eq};
ghost use Rattle.std.specs.List.{list_any};
ghost use Rattle.fx_linker.specs.Tables.{other_in, others_from, main_in, entries_of, entry_pieces, table_pieces, calls_have, with_caller, callers_from, callers, record_of, record_at, records_from};
ghost use Rattle.fx_linker.specs.Entries.{homes};

use crate::entries::home;
use crate::parts::PartSpot;
use fx_c_ast::checked::{TFunction, TProgram};
use fx_config::{Compartment, Config, Names};
use fx_grants::sets::with_member;
use fx_image::{EntryRec, Name};
use fx_x64_forms::inst::Inst;
use fx_x64_forms::piece::{Piece, Target};
use std::alloc::{AllocError, Global};

/// The pieces behind an entry's jump of 5 bytes: they fill it up to 16.
const FILL: usize = 11;

/// Whether function f is an entry function of a compartment other than `main`.
fn is_other(p: &TProgram, spots: &[PartSpot], compartment: u8, f: usize, x: &TFunction) -> bool
    ensures { result ≡ (x.now.entry && not (f == p.now.main) && slice_index (homes spots.now) f == compartment) }
{
    x.entry && f != p.main as usize && home(spots, f) == compartment
}

/// Appends function f, where it is an entry function of the compartment other than `main`.
fn put_other(
    p: &TProgram,
    spots: &[PartSpot],
    compartment: u8,
    f: usize,
    x: &TFunction,
    out: &mut Vec<u32>,
) -> Result<(), AllocError>
    requires { f < 2 ^ 32 }
    ensures { OnOk result (out.new.items ≡ out.old.items ++ other_in p.now.main (homes spots.now) compartment f x.now) }
{
    if is_other(p, spots, compartment, f, x) {
        out.push(f as u32)?;
    }
    Ok(())
}

/// Appends `main`, where it is in the compartment.
fn put_main(
    p: &TProgram,
    spots: &[PartSpot],
    compartment: u8,
    out: &mut Vec<u32>,
) -> Result<(), AllocError>
    ensures { OnOk result (out.new.items ≡ out.old.items ++ main_in p.now.main (homes spots.now) compartment) }
{
    if home(spots, p.main as usize) == compartment {
        out.push(p.main)?;
    }
    Ok(())
}

/// The entries of a compartment in order: `main` where it is there, then the entry functions in program
/// order.
pub fn entries_of(
    alloc: Global,
    p: &TProgram,
    spots: &[PartSpot],
    compartment: u8,
) -> Result<Vec<u32>, AllocError>
    requires { length p.now.functions < 2 ^ 32 }
    ensures { IfOk result (λ v. v.items ≡ entries_of p.now spots.now compartment) }
{
    let mut found = Vec::new(alloc);
    put_main(p, spots, compartment, &mut found)?;
    put_others(p, spots, compartment, &mut found)?;
    Ok(found)
}

/// Appends the entry functions of a compartment other than `main`.
fn put_others(
    p: &TProgram,
    spots: &[PartSpot],
    compartment: u8,
    out: &mut Vec<u32>,
) -> Result<(), AllocError>
    requires { length p.now.functions < 2 ^ 32 }
    ensures { OnOk result (out.new.items ≡ out.old.items ++ others_from p.now.main (homes spots.now) compartment 0 p.now.functions) }
{
    for (f, x) in p.functions.as_slice().iter().enumerate() {
        put_other(p, spots, compartment, f, x, out)?;
    }
    Ok(())
}

/// Appends so many times HLT.
fn put_fill(count: usize, out: &mut Vec<Piece>) -> Result<(), AllocError>
    requires { count ≤ 16 }
    ensures { OnOk result (out.new.items ≡ out.old.items ++ replicate count (record { inst = Inst.Hlt; target = None })) }
{
    let piece = Piece {
        inst: Inst::Hlt,
        target: None,
    };
    out.resize(out.len() + count, piece)
}

/// Appends an entry: a jump to a function, and what fills it up to 16 bytes.
fn put_entry(function: u32, out: &mut Vec<Piece>) -> Result<(), AllocError>
    ensures { OnOk result (out.new.items ≡ out.old.items ++ entry_pieces function) }
{
    out.push(Piece {
        inst: Inst::Jmp { rel: 0 },
        target: Some(Target::Function(function)),
    })?;
    put_fill(FILL, out)
}

/// Appends the entry table of entries: at 16 * i the jump to entry i.
pub fn put_table(entries: &[u32], out: &mut Vec<Piece>) -> Result<(), AllocError>
    ensures { OnOk result (out.new.items ≡ out.old.items ++ table_pieces entries.now) }
{
    for function in entries {
        put_entry(*function, out)?;
    }
    Ok(())
}

/// Whether calls name an entry function; without a list they name each.
fn calls_have(name: &[u8], calls: &Option<Names>) -> bool
    ensures { result ≡ calls_have name.now calls.now }
{
    match calls {
        None => true,
        Some(calls) => is_named(name, calls),
    }
}

fn is_named(name: &[u8], calls: &Names) -> bool
    ensures { result ≡ list_any (λ call. bytes_eq call name.now) calls.now }
{
    for call in calls.as_slice() {
        if call.as_bytes() == name {
            return true;
        }
    }
    false
}

/// The set with a compartment that may call an entry function.
fn with_caller(name: &[u8], set: u16, compartment: u8, x: &Compartment) -> u16
    requires { compartment < 16 }
    ensures { result ≡ with_caller name.now set compartment x.now }
{
    if calls_have(name, &x.calls) {
        with_member(set, compartment)
    } else {
        set
    }
}

/// The compartments that may call an entry function.
fn all_callers(name: &[u8], k: &Config) -> u16
    requires { length k.now.compartments ≤ 16 }
    ensures { result ≡ callers_from name.now 0 0 k.now.compartments }
{
    let mut set = 0;
    for (c, x) in k.compartments.as_slice().iter().enumerate() {
        set = with_caller(name, set, c as u8, x);
    }
    set
}

/// The compartments that may call a function: none where it is no entry function.
fn callers(k: &Config, f: &TFunction) -> u16
    requires { length k.now.compartments ≤ 16 }
    ensures { result ≡ callers k.now f.now }
{
    if f.entry {
        all_callers(f.name.as_slice(), k)
    } else {
        0
    }
}

fn record_of(
    alloc: Global,
    k: &Config,
    compartment: u8,
    number: usize,
    f: &TFunction,
) -> Result<EntryRec, AllocError>
    requires { length k.now.compartments ≤ 16 }
    ensures { IfOk result (λ e. e ≡ record_of k.now compartment number f.now) }
{
    Ok(EntryRec {
        name: Name::from_vec(Vec::from_slice(alloc, f.name.as_slice())?),
        compartment,
        number: (number % 65_536) as u16,
        callers: callers(k, f),
    })
}

/// Appends the record of an entry, where its function is there.
fn put_record(
    alloc: Global,
    p: &TProgram,
    k: &Config,
    compartment: u8,
    number: usize,
    function: u32,
    out: &mut Vec<EntryRec>,
) -> Result<(), AllocError>
    requires { length k.now.compartments ≤ 16 }
    ensures { OnOk result (out.new.items ≡ out.old.items ++ record_at k.now compartment number (slice_get p.now.functions function)) }
{
    match p.functions.as_slice().get(function as usize) {
        Some(f) => {
            out.push(record_of(alloc, k, compartment, number, f)?)?;
            Ok(())
        }
        None => Ok(()),
    }
}

/// Appends the records of a compartment's entries, in order.
pub fn put_records(
    alloc: Global,
    p: &TProgram,
    k: &Config,
    compartment: u8,
    entries: &[u32],
    out: &mut Vec<EntryRec>,
) -> Result<(), AllocError>
    requires { length k.now.compartments ≤ 16 }
    ensures { OnOk result (out.new.items ≡ out.old.items ++ records_from p.now k.now compartment 0 entries.now) }
{
    for (number, function) in entries.iter().enumerate() {
        put_record(alloc, p, k, compartment, number, *function, out)?;
    }
    Ok(())
}
