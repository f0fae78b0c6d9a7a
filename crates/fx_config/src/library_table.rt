//! Reading one library's table.

ghost use Rattle.toml.specs.View.{table_view};
ghost use Rattle.fx_config.specs.Answers.{Gives};
ghost use Rattle.fx_config.specs.Reading.{library_of};

use crate::configuration::{ConfigError, FileNames, Library};
use crate::fields::{file_names, has_only, name, required};
use crate::names::{are_file_names, is_c_name};
use std::alloc::Global;
use toml::Table;

/// What a library's table means.
pub fn library(alloc: Global, table: &Table) -> Result<Library, ConfigError>
    ensures { Gives (λ l. l) result (library_of (table_view table.now)) }
{
    if !has_only(table, &["name", "files"]) {
        return Err(ConfigError::UnknownField);
    }
    let name_field = required(table, "name")?;
    let files_field = required(table, "files")?;
    let name = name(alloc, name_field)?;
    let files = file_names(alloc, files_field)?;
    if !is_c_name(name.as_bytes()) || !are_file_names(&files) {
        return Err(ConfigError::OutOfRange);
    }
    Ok(Library {
        name,
        files: FileNames::new(files),
    })
}
