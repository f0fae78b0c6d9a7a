//! The fields of one table of a document: which are there, and what they hold at a type.

ghost use Rattle.std.specs.Prelude.{◌≡◌, map, option_map, bytes_eq};
ghost use Rattle.std.specs.List.{list_any};
ghost use Rattle.toml.specs.Data.{get_member};
ghost use Rattle.toml.specs.View.{view, table_view};
ghost use Rattle.fx_config.specs.Answers.{Gives};
ghost use Rattle.fx_config.specs.Document.{required, string_of, integer_of, table_of, array_of, strings_of, integers_of, tables_of};
ghost use Rattle.fx_config.specs.Reading.{has_only};

use crate::configuration::ConfigError;
use crate::lists::{FileName, Name};
use std::alloc::Global;
use toml::{Table, Value};

fn is_among(text: &str, texts: &[&str]) -> bool
    ensures { result ≡ list_any (λ t. bytes_eq t text.now) (map (λ t. t.now) texts.now) }
{
    texts.contains(&text)
}

/// Whether every key of the table is one of these fields.
pub fn has_only(table: &Table, fields: &[&str]) -> bool
    ensures { result ≡ has_only (map (λ f. f.now) fields.now) (table_view table.now) }
{
    for key in table.keys() {
        if !is_among(key.as_str(), fields) {
            return false;
        }
    }
    true
}

/// The value of a field, if the table has it.
pub fn field<'a>(table: &'a Table, name: &str) -> Option<&'a Value>
    ensures { option_map (λ v. view v.now) result ≡ get_member name.now (table_view table.now) }
{
    table.get(name)
}

/// The value of a field that has to be there.
pub fn required<'a>(table: &'a Table, name: &str) -> Result<&'a Value, ConfigError>
    ensures { Gives (λ v. view v.now) result (required name.now (table_view table.now)) }
{
    match field(table, name) {
        Some(value) => Ok(value),
        None => Err(ConfigError::Missing),
    }
}

/// The text of a string.
pub fn string(value: &Value) -> Result<&str, ConfigError>
    ensures { Gives (λ s. s.now) result (string_of (view value.now)) }
{
    match value.as_str() {
        Some(text) => Ok(text),
        None => Err(ConfigError::WrongType),
    }
}

/// The number of an integer.
pub fn integer(value: &Value) -> Result<i64, ConfigError>
    ensures { Gives (λ n. n) result (integer_of (view value.now)) }
{
    match value.as_integer() {
        Some(number) => Ok(number),
        None => Err(ConfigError::WrongType),
    }
}

/// The entries of a table.
fn table(value: &Value) -> Result<&Table, ConfigError>
    ensures { Gives (λ t. table_view t.now) result (table_of (view value.now)) }
{
    match value.as_table() {
        Some(table) => Ok(table),
        None => Err(ConfigError::WrongType),
    }
}

/// The elements of an array.
fn array(value: &Value) -> Result<&[Value], ConfigError>
    ensures { Gives (λ vs. map view vs.now) result (array_of (view value.now)) }
{
    match value.as_array() {
        Some(array) => Ok(array),
        None => Err(ConfigError::WrongType),
    }
}

/// A copy of a string as a name.
pub fn name(alloc: Global, value: &Value) -> Result<Name, ConfigError>
    ensures { Gives (λ n. n) result (string_of (view value.now)) }
{
    let text = string(value)?;
    Ok(Name::new(Vec::from_slice(alloc, text.as_bytes())?))
}

/// A copy of a string as a file name.
fn file_name(alloc: Global, value: &Value) -> Result<FileName, ConfigError>
    ensures { Gives (λ n. n) result (string_of (view value.now)) }
{
    let text = string(value)?;
    Ok(FileName::new(String::from_str(alloc, text)?))
}

/// Copies of the elements of an array of strings, as names.
pub fn names(alloc: Global, value: &Value) -> Result<Vec<Name>, ConfigError>
    ensures { Gives (λ v. v.items) result (strings_of (view value.now)) }
{
    let values = array(value)?;
    let mut found = Vec::new(alloc);
    for element in values {
        let next = name(alloc, element)?;
        found.push(next)?;
    }
    Ok(found)
}

/// Copies of the elements of an array of strings, as file names.
pub fn file_names(alloc: Global, value: &Value) -> Result<Vec<FileName>, ConfigError>
    ensures { Gives (λ v. v.items) result (strings_of (view value.now)) }
{
    let values = array(value)?;
    let mut found = Vec::new(alloc);
    for element in values {
        let next = file_name(alloc, element)?;
        found.push(next)?;
    }
    Ok(found)
}

/// The elements of an array of integers.
pub fn integers(alloc: Global, value: &Value) -> Result<Vec<i64>, ConfigError>
    ensures { Gives (λ v. v.items) result (integers_of (view value.now)) }
{
    let values = array(value)?;
    let mut found = Vec::new(alloc);
    for element in values {
        let next = integer(element)?;
        found.push(next)?;
    }
    Ok(found)
}

/// The elements of an array of tables.
pub fn tables(alloc: Global, value: &Value) -> Result<Vec<&Table>, ConfigError>
    ensures { Gives (λ v. map (λ t. table_view t.now) v.items) result (tables_of (view value.now)) }
{
    let values = array(value)?;
    let mut found = Vec::new(alloc);
    for element in values {
        let next = table(element)?;
        found.push(next)?;
    }
    Ok(found)
}
