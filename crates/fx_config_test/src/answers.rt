//! What a document means, in words.

use fx_config::{Compartment, Config, Library, Names, read};
use std::alloc::{AllocError, Global};

/// Appends a space and a name.
fn append_word(text: &mut String, word: &[u8]) -> Result<(), AllocError> {
    text.push(' ')?;
    for byte in word {
        text.push(char::from(*byte))?;
    }
    Ok(())
}

fn append_names(text: &mut String, names: &Names) -> Result<(), AllocError> {
    for name in names.as_slice() {
        append_word(text, name.as_bytes())?;
    }
    Ok(())
}

fn append_library(text: &mut String, library: &Library) -> Result<(), AllocError> {
    text.push_str("; library")?;
    append_word(text, library.name.as_bytes())?;
    text.push(':')?;
    for file in library.files.as_slice() {
        append_word(text, file.as_str().as_bytes())?;
    }
    Ok(())
}

fn append_compartment(
    alloc: Global,
    text: &mut String,
    compartment: &Compartment,
) -> Result<(), AllocError> {
    text.push_str("; compartment")?;
    append_word(text, compartment.name.as_bytes())?;
    text.push(':')?;
    append_names(text, &compartment.libraries)?;
    if let Some(calls) = &compartment.calls {
        text.push_str(", calls")?;
        append_names(text, calls)?;
    }
    if !compartment.devices.as_slice().is_empty() {
        text.push_str(", devices")?;
    }
    for device in compartment.devices.as_slice() {
        text.push_str(format!(in alloc; " {device}")?.as_str())?;
    }
    Ok(())
}

fn meaning(alloc: Global, config: &Config) -> Result<String, AllocError> {
    let mechanism = config.mechanism;
    let pages = config.stack_pages;
    let scheduler = config.scheduler;
    let mut text = format!(in alloc; "{mechanism:?}, {pages} pages, scheduler {scheduler}")?;
    for library in config.libraries.as_slice() {
        append_library(&mut text, library)?;
    }
    for compartment in config.compartments.as_slice() {
        append_compartment(alloc, &mut text, compartment)?;
    }
    Ok(text)
}

/// What a document means, or its refusal.
pub fn answer(alloc: Global, document: &str) -> Result<String, AllocError> {
    match read(alloc, document.as_bytes()) {
        Ok(config) => meaning(alloc, &config),
        Err(error) => format!(in alloc; "{error:?}"),
    }
}
