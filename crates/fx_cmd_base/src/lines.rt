//! The lines, part by part.

ghost use Rattle.std.specs.Prelude.{◌≡◌, IfOk, string_bytes};
ghost use Rattle.fx_cmd_base.specs.ProgramWords.{program_status, program_words};
ghost use Rattle.fx_cmd_base.specs.RefusalWords.{numbered, parse_kind, grants_kind, place_kind, config_refusal, parse_refusal, types_refusal, grants_refusal, place_refusal, fault_words, file_fault};

use crate::kinds::{config_kind, type_kind};
use fx_base::FileError;
use fx_c_parse::ParseError;
use fx_c_types_rules::fault::TypeKind;
use fx_cmd_load::ProgramError;
use fx_config::ConfigError;
use fx_grants::GrantError;
use fx_sections::PlaceError;
use std::alloc::{AllocError, Global};

/// The line of a refused configuration.
pub fn config_refusal(alloc: Global, error: ConfigError) -> Result<String, AllocError>
    ensures { IfOk result (λ s. string_bytes s ≡ config_refusal error) }
{
    let kind = config_kind(error);
    format!(in alloc; "refused: config {kind}")
}

fn parse_kind(alloc: Global, error: ParseError) -> Result<String, AllocError>
    ensures { IfOk result (λ s. string_bytes s ≡ parse_kind error) }
{
    match error {
        ParseError::Byte(at) => format!(in alloc; "Byte {at}"),
        ParseError::Syntax(count) => format!(in alloc; "Syntax {count}"),
        ParseError::OutOfMemory => String::from_str(alloc, "OutOfMemory"),
    }
}

/// The line of the source file of a number that has no tree.
pub fn parse_refusal(alloc: Global, file: u32, error: ParseError) -> Result<String, AllocError>
    ensures { IfOk result (λ s. string_bytes s ≡ parse_refusal file error) }
{
    let kind = parse_kind(alloc, error)?;
    format!(in alloc; "refused: parse file {file} {kind}")
}

/// The line of a type rule that the declaration of a number violates.
pub fn types_refusal(alloc: Global, kind: TypeKind, declaration: u32) -> Result<String, AllocError>
    ensures { IfOk result (λ s. string_bytes s ≡ types_refusal kind declaration) }
{
    let kind = type_kind(kind);
    format!(in alloc; "refused: types {kind} {declaration}")
}

fn grants_kind(alloc: Global, error: GrantError) -> Result<String, AllocError>
    ensures { IfOk result (λ s. string_bytes s ≡ grants_kind error) }
{
    match error {
        GrantError::UnknownLibrary => String::from_str(alloc, "UnknownLibrary"),
        GrantError::NoCompartment(library) => format!(in alloc; "NoCompartment {library}"),
        GrantError::UnknownEntry => String::from_str(alloc, "UnknownEntry"),
        GrantError::NotOwner(device) => format!(in alloc; "NotOwner {device}"),
        GrantError::GateNotGranted(f) => format!(in alloc; "GateNotGranted {f}"),
        GrantError::NotScheduler(f) => format!(in alloc; "NotScheduler {f}"),
        GrantError::OutOfMemory => String::from_str(alloc, "OutOfMemory"),
    }
}

/// The line of a configuration that is refused for a program.
pub fn grants_refusal(alloc: Global, error: GrantError) -> Result<String, AllocError>
    ensures { IfOk result (λ s. string_bytes s ≡ grants_refusal error) }
{
    let kind = grants_kind(alloc, error)?;
    format!(in alloc; "refused: grants {kind}")
}

fn place_kind(alloc: Global, error: PlaceError) -> Result<String, AllocError>
    ensures { IfOk result (λ s. string_bytes s ≡ place_kind error) }
{
    match error {
        PlaceError::TooManyKeys(n) => format!(in alloc; "TooManyKeys {n}"),
        PlaceError::TooManyObjects(n) => format!(in alloc; "TooManyObjects {n}"),
        PlaceError::DataTooLong(n) => format!(in alloc; "DataTooLong {n}"),
        PlaceError::InitialTooLong(n) => format!(in alloc; "InitialTooLong {n}"),
        PlaceError::OutOfMemory => String::from_str(alloc, "OutOfMemory"),
    }
}

/// The line of a program that is refused for its number or size.
pub fn place_refusal(alloc: Global, error: PlaceError) -> Result<String, AllocError>
    ensures { IfOk result (λ s. string_bytes s ≡ place_refusal error) }
{
    let kind = place_kind(alloc, error)?;
    format!(in alloc; "refused: place {kind}")
}

fn fault_words(error: FileError) -> &'static str
    ensures { result.now ≡ fault_words error }
{
    match error {
        FileError::Failed | FileError::OutOfMemory => "file fault: ",
        FileError::Missing => "no file: ",
        FileError::TooLong => "file too long: ",
    }
}

/// The line of a file that was not read or written.
pub fn file_fault(alloc: Global, name: &str, error: FileError) -> Result<String, AllocError>
    ensures { IfOk result (λ s. string_bytes s ≡ file_fault name.now error) }
{
    let words = fault_words(error);
    let mut line = String::from_str(alloc, words)?;
    line.push_str(name)?;
    Ok(line)
}

/// The status where there is no checked program: 4 for a file's fault, 3 for a refusal, 6 for want of memory.
pub fn program_status(error: &ProgramError) -> u8
    ensures { result ≡ program_status error.now }
{
    match error {
        ProgramError::File { .. } => 4,
        ProgramError::Config(_) | ProgramError::Parse { .. } | ProgramError::Types { .. } => 3,
        ProgramError::OutOfMemory => 6,
    }
}

/// The words where there is no checked program.
pub fn program_words(alloc: Global, error: &ProgramError) -> Result<String, AllocError>
    ensures { IfOk result (λ s. string_bytes s ≡ program_words error.now) }
{
    match error {
        ProgramError::File { name, error } => file_fault(alloc, name.as_str(), *error),
        ProgramError::Config(error) => config_refusal(alloc, *error),
        ProgramError::Parse { file, error } => parse_refusal(alloc, *file, *error),
        ProgramError::Types { kind, declaration } => types_refusal(alloc, *kind, *declaration),
        ProgramError::OutOfMemory => String::from_str(alloc, "out of memory"),
    }
}
