//! Reading the fields of the top table.

ghost use Rattle.std.specs.Prelude.{◌≡◌, ◌≤◌, IfOk, map, option_map, vec_len};
ghost use Rattle.toml.specs.Data.{get_member};
ghost use Rattle.toml.specs.View.{table_view};
ghost use Rattle.fx_config.specs.Answers.{Gives};
ghost use Rattle.fx_config.specs.Document.{if_there, string_of, integer_of};
ghost use Rattle.fx_config.specs.Names.{is_c_name};
ghost use Rattle.std.specs.Int.{is_in_range};
ghost use Rattle.fx_config.specs.Reading.{top_of, passes_if_there, mechanism_of, compartment_limit, stack_pages_of};
ghost use Rattle.fx_config.specs.TopView.{top_view};

use crate::configuration::{ConfigError, Mechanism};
use crate::fields::{field, has_only, integer, required, string, tables};
use crate::names::{is_c_name, number_in};
use std::alloc::Global;
use toml::Table;

/// What the top table's own fields say.
#[derive(Drop)]
pub struct TopTable<'a> {
    pub mechanism: Mechanism,
    pub stack_pages: u8,
    pub scheduler: Option<&'a str>,
    pub libraries: Vec<&'a Table>,
    pub compartments: Vec<&'a Table>,
}

/// What the top table's own fields say.
pub fn top(alloc: Global, table: &Table) -> Result<TopTable<'_>, ConfigError>
    ensures exact { Gives top_view result (top_of (table_view table.now)) }
    ensures small { IfOk result (λ t. vec_len t.compartments ≤ 16) }
{
    if !has_only(
        table,
        &[
            "mechanism",
            "stack_pages",
            "scheduler",
            "library",
            "compartment",
        ],
    ) {
        return Err(ConfigError::UnknownField);
    }
    let word = required(table, "mechanism")?;
    let libraries = required(table, "library")?;
    let compartments = required(table, "compartment")?;
    let word = string(word)?;
    let libraries = tables(alloc, libraries)?;
    let compartments = tables(alloc, compartments)?;
    let pages = integer_if_there(table, "stack_pages")?;
    let scheduler = string_if_there(table, "scheduler")?;
    let mechanism = mechanism(word).ok_or(ConfigError::OutOfRange)?;
    let stack_pages = stack_pages(pages).ok_or(ConfigError::OutOfRange)?;
    if !is_c_name_if_there(scheduler)
        || !is_from_one_to(64, libraries.len())
        || !is_from_one_to(compartment_limit(mechanism), compartments.len())
    {
        return Err(ConfigError::OutOfRange);
    }
    Ok(TopTable {
        mechanism,
        stack_pages,
        scheduler,
        libraries,
        compartments,
    })
}

fn integer_if_there(table: &Table, key: &str) -> Result<Option<i64>, ConfigError>
    ensures { Gives (λ o. o) result (if_there integer_of (get_member key.now (table_view table.now))) }
{
    match field(table, key) {
        Some(value) => Ok(Some(integer(value)?)),
        None => Ok(None),
    }
}

fn string_if_there<'a>(table: &'a Table, key: &str) -> Result<Option<&'a str>, ConfigError>
    ensures { Gives (λ o. option_map (λ s. s.now) o) result (if_there string_of (get_member key.now (table_view table.now))) }
{
    match field(table, key) {
        Some(value) => Ok(Some(string(value)?)),
        None => Ok(None),
    }
}

fn is_c_name_if_there(text: Option<&str>) -> bool
    ensures { result ≡ passes_if_there is_c_name (option_map (λ s. s.now) text.entry) }
{
    match text {
        Some(text) => is_c_name(text.as_bytes()),
        None => true,
    }
}

/// The mechanism of a word.
fn mechanism(word: &str) -> Option<Mechanism>
    ensures { result ≡ mechanism_of word.now }
{
    if word == "call" {
        Some(Mechanism::Call)
    } else if word == "light" {
        Some(Mechanism::Light)
    } else if word == "full" {
        Some(Mechanism::Full)
    } else if word == "ept" {
        Some(Mechanism::Ept)
    } else {
        None
    }
}

/// The most compartments under a mechanism.
fn compartment_limit(mechanism: Mechanism) -> usize
    ensures value { result ≡ compartment_limit mechanism }
    ensures small { result ≤ 16 }
{
    match mechanism {
        Mechanism::Call => 8,
        Mechanism::Light => 8,
        Mechanism::Full => 8,
        Mechanism::Ept => 16,
    }
}

/// The pages of a stack, 4 where the document does not say.
fn stack_pages(pages: Option<i64>) -> Option<u8>
    ensures { result ≡ stack_pages_of pages }
{
    match pages {
        Some(pages) => number_in(1, 64, pages),
        None => Some(4),
    }
}

fn is_from_one_to(limit: usize, count: usize) -> bool
    ensures { result ≡ is_in_range 1 limit count }
{
    1 <= count && count <= limit
}
