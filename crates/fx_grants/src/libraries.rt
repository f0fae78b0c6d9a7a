//! Whether the libraries and entries that are named are there.

ghost use Rattle.std.specs.Prelude.{◌≡◌, ◌<◌, IfSome, length};
ghost use Rattle.std.specs.List.{list_all};
ghost use Rattle.fx_config.specs.declared.configuration.Compartment.{Compartment as Held};
ghost use Rattle.fx_grants.specs.Refusals.{is_library, annotation_known, annotations_known, libraries_known, homeless, is_entry, calls_known, entries_known};

use crate::homes::is_placed;
use fx_c_ast::checked::{TGlobal, TProgram};
use fx_c_ast::parsed::{Grant, Name as Annotated};
use fx_config::{Compartment, Config, Name, Names};

fn is_library(c: &Config, name: &[u8]) -> bool
    ensures { result ≡ is_library c.now name.now }
{
    c.libraries
        .as_slice()
        .iter()
        .any(|library| library.name.as_bytes() == name)
}

fn holds_known(c: &Config, compartment: &Compartment) -> bool
    ensures { result ≡ list_all (is_library c.now) compartment.now.libraries }
{
    compartment
        .libraries
        .as_slice()
        .iter()
        .all(|name| is_library(c, name.as_bytes()))
}

fn are_libraries(c: &Config, names: &[Annotated]) -> bool
    ensures { result ≡ list_all (is_library c.now) names.now }
{
    names.iter().all(|name| is_library(c, name.as_slice()))
}

fn annotation_known(c: &Config, grant: &Grant) -> bool
    ensures { result ≡ annotation_known c.now grant.now }
{
    match grant {
        Grant::Private | Grant::All => true,
        Grant::Libraries(names) => are_libraries(c, names.as_slice()),
    }
}

fn annotations_known(c: &Config, global: &TGlobal) -> bool
    ensures { result ≡ annotations_known c.now global.now }
{
    annotation_known(c, &global.grant) & annotation_known(c, &global.readers)
}

fn held_known(c: &Config) -> bool
    ensures { result ≡ list_all (λ (k : Held). list_all (is_library c.now) k.libraries) c.now.compartments }
{
    c.compartments
        .as_slice()
        .iter()
        .all(|compartment| holds_known(c, compartment))
}

fn annotated_known(p: &TProgram, c: &Config) -> bool
    ensures { result ≡ list_all (annotations_known c.now) p.now.globals }
{
    p.globals
        .as_slice()
        .iter()
        .all(|global| annotations_known(c, global))
}

/// Whether each library that a compartment or an annotation names is in the configuration.
pub fn libraries_known(p: &TProgram, c: &Config) -> bool
    ensures { result ≡ libraries_known p.now c.now }
{
    held_known(c) & annotated_known(p, c)
}

/// The first library that is in no compartment.
pub fn homeless(c: &Config) -> Option<usize>
    ensures first { result ≡ homeless c.now }
    ensures within { IfSome result (λ l. l < length c.now.libraries) }
{
    c.libraries
        .as_slice()
        .iter()
        .position(|library| !is_placed(c, library.name.as_bytes()))
}

fn is_entry(p: &TProgram, name: &[u8]) -> bool
    ensures { result ≡ is_entry p.now name.now }
{
    p.functions
        .as_slice()
        .iter()
        .any(|f| f.entry && f.name.as_slice() == name)
}

fn are_entries(p: &TProgram, names: &[Name]) -> bool
    ensures { result ≡ list_all (is_entry p.now) names.now }
{
    names.iter().all(|name| is_entry(p, name.as_bytes()))
}

fn calls_known(p: &TProgram, calls: &Option<Names>) -> bool
    ensures { result ≡ calls_known p.now calls.now }
{
    match calls {
        Some(names) => are_entries(p, names.as_slice()),
        None => true,
    }
}

/// Whether each list of calls names entry functions alone.
pub fn entries_known(p: &TProgram, c: &Config) -> bool
    ensures { result ≡ entries_known p.now c.now }
{
    c.compartments
        .as_slice()
        .iter()
        .all(|compartment| calls_known(p, &compartment.calls))
}
