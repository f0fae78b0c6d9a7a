//! Reading one compartment's table.

ghost use Rattle.std.specs.Prelude.{◌≡◌};
ghost use Rattle.std.specs.List.{list_all};
ghost use Rattle.toml.specs.Data.{get_member};
ghost use Rattle.toml.specs.View.{table_view};
ghost use Rattle.fx_config.specs.Answers.{Gives, read_each};
ghost use Rattle.fx_config.specs.Document.{if_there, each_if_there, strings_of, integers_of};
ghost use Rattle.fx_config.specs.Names.{is_c_name};
ghost use Rattle.fx_config.specs.Reading.{compartment_of, device_of, passes_if_there};

use crate::configuration::{Compartment, ConfigError, Names};
use crate::fields::{field, has_only, integers, name, names, required};
use crate::lists::{Bytes, Name};
use crate::names::{are_c_names, is_c_name, number_in};
use std::alloc::Global;
use toml::Table;

/// What a compartment's table means.
pub fn compartment(alloc: Global, table: &Table) -> Result<Compartment, ConfigError>
    ensures { Gives (λ c. c) result (compartment_of (table_view table.now)) }
{
    if !has_only(table, &["name", "libraries", "calls", "devices"]) {
        return Err(ConfigError::UnknownField);
    }
    let name_field = required(table, "name")?;
    let libraries_field = required(table, "libraries")?;
    let name = name(alloc, name_field)?;
    let libraries = names(alloc, libraries_field)?;
    let calls = names_if_there(alloc, table, "calls")?;
    let numbers = integers_if_there(alloc, table, "devices")?;
    if !is_c_name(name.as_bytes()) || !are_c_names(&libraries) || !are_c_names_if_there(&calls) {
        return Err(ConfigError::OutOfRange);
    }
    let devices = device_numbers(alloc, &numbers)?;
    Ok(Compartment {
        name,
        libraries: Names::new(libraries),
        calls,
        devices: Bytes::new(devices),
    })
}

/// The names of a field of strings, if the table has it.
fn names_if_there(alloc: Global, table: &Table, key: &str) -> Result<Option<Names>, ConfigError>
    ensures { Gives (λ o. o) result (if_there strings_of (get_member key.now (table_view table.now))) }
{
    match field(table, key) {
        Some(value) => Ok(Some(Names::new(names(alloc, value)?))),
        None => Ok(None),
    }
}

/// The numbers of a field of integers, none if the table lacks it.
fn integers_if_there(alloc: Global, table: &Table, key: &str) -> Result<Vec<i64>, ConfigError>
    ensures { Gives (λ v. v.items) result (each_if_there integers_of (get_member key.now (table_view table.now))) }
{
    match field(table, key) {
        Some(value) => integers(alloc, value),
        None => Ok(Vec::new(alloc)),
    }
}

fn are_c_names_if_there(names: &Option<Names>) -> bool
    ensures { result ≡ passes_if_there (list_all is_c_name) names.now }
{
    match names {
        Some(names) => are_c_names(names.as_slice()),
        None => true,
    }
}

/// The numbers of devices, each 0 to 15.
fn device_numbers(alloc: Global, numbers: &[i64]) -> Result<Vec<u8>, ConfigError>
    ensures { Gives (λ v. v.items) result (read_each device_of numbers.now) }
{
    let mut devices = Vec::new(alloc);
    for number in numbers {
        let next = device_number(*number)?;
        devices.push(next)?;
    }
    Ok(devices)
}

fn device_number(number: i64) -> Result<u8, ConfigError>
    ensures { Gives (λ n. n) result (device_of number) }
{
    match number_in(0, 15, number) {
        Some(number) => Ok(number),
        None => Err(ConfigError::OutOfRange),
    }
}
