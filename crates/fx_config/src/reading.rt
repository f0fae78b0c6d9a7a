//! Reading a configuration document, table by table.

ghost use Rattle.std.specs.Prelude.{◌≡◌, IfOk, map, length, vec_len};
ghost use Rattle.toml.specs.View.{table_view};
ghost use Rattle.fx_config.specs.Answers.{Gives, read_each};
ghost use Rattle.fx_config.specs.Reading.{library_of, compartment_of, config_of, configuration_of, document_of};

use crate::compartment_table::compartment;
use crate::configuration::{Compartment, Compartments, Config, ConfigError, Libraries, Library};
use crate::library_table::library;
use crate::places::{file_names, scheduler_number, stand_once};
use crate::top_table::top;
use std::alloc::Global;
use toml::Table;

/// What a configuration document means, or its first refusal.
///
/// `text` is the whole document, of any length. The refusals come in this order: `NotToml` where the
/// text is not UTF-8 or no TOML 1.1 document; then for the top table, each library and each compartment
/// `UnknownField`, `Missing`, `WrongType` and `OutOfRange`; then `OutOfRange` for more than 64 files or
/// a scheduler that names no compartment; last `TwoPlaces`.
pub fn read(alloc: Global, text: &[u8]) -> Result<Config, ConfigError>
    ensures exact { Gives (λ c. c) result (configuration_of text.now) }
{
    let document = document(alloc, text)?;
    config(alloc, &document)
}

/// The table that a text is.
fn document(alloc: Global, text: &[u8]) -> Result<Table, ConfigError>
    ensures { Gives table_view result (document_of text.now) }
{
    match toml::table_from_slice(alloc, text) {
        Ok(table) => Ok(table),
        Err(error) => {
            if error.is_memory() {
                Err(ConfigError::OutOfMemory)
            } else {
                Err(ConfigError::NotToml)
            }
        }
    }
}

fn libraries(alloc: Global, tables: &[&Table]) -> Result<Vec<Library>, ConfigError>
    ensures { Gives (λ v. v.items) result (read_each library_of (map (λ t. table_view t.now) tables.now)) }
{
    let mut libraries = Vec::new(alloc);
    for table in tables {
        let next = library(alloc, table)?;
        libraries.push(next)?;
    }
    Ok(libraries)
}

fn compartments(alloc: Global, tables: &[&Table]) -> Result<Vec<Compartment>, ConfigError>
    ensures exact { Gives (λ v. v.items) result (read_each compartment_of (map (λ t. table_view t.now) tables.now)) }
    ensures count { IfOk result (λ v. vec_len v ≡ length tables.now) }
{
    let mut compartments = Vec::new(alloc);
    for table in tables {
        let next = compartment(alloc, table)?;
        compartments.push(next)?;
    }
    Ok(compartments)
}

/// What the table of a document means.
fn config(alloc: Global, document: &Table) -> Result<Config, ConfigError>
    ensures { Gives (λ c. c) result (config_of (table_view document.now)) }
{
    let top = top(alloc, document)?;
    let libraries = libraries(alloc, &top.libraries)?;
    let compartments = compartments(alloc, &top.compartments)?;
    if file_names(alloc, &libraries)?.len() > 64 {
        return Err(ConfigError::OutOfRange);
    }
    let scheduler = scheduler_number(top.scheduler, &compartments).ok_or(ConfigError::OutOfRange)?;
    if !stand_once(alloc, &libraries, &compartments)? {
        return Err(ConfigError::TwoPlaces);
    }
    Ok(Config {
        mechanism: top.mechanism,
        stack_pages: top.stack_pages,
        scheduler,
        libraries: Libraries::new(libraries),
        compartments: Compartments::new(compartments),
    })
}
