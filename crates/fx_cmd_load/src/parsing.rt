//! Parsing source texts in order.

ghost use Rattle.std.specs.Prelude.{◌≡◌, ◌<◌, ◌≤◌, ◌^◌, All, IfOk, IfErr, length};
ghost use Rattle.fx_cmd_load.specs.Named.{source_files};
ghost use Rattle.fx_cmd_load.specs.Reading.{texts_of};
ghost use Rattle.fx_cmd_load.specs.declared.reading.SourceText.{SourceText as Text};
ghost use Rattle.fx_cmd_load.specs.Parsing.{AreParsed, OneHasNoTree, HasTree, HasNoTree};

use crate::error::LoadError;
use crate::named::SourceName;
use crate::reading::SourceText;
use fx_c_ast::parsed::Unit;
use fx_c_parse::{ParseError, parse};
use std::alloc::Global;

/// A parsed source file, with the number of its library.
#[derive(Debug, Drop)]
pub struct ParsedFile {
    pub library: u8,
    pub unit: Unit,
}

// The tree of the source text of a number.
fn parse_text(alloc: Global, file: u32, text: &[u8]) -> Result<Unit, LoadError>
    requires { length text.now ≤ 1048576 }
    ensures tree { IfOk result (HasTree text.now) }
    ensures cause { IfErr result (HasNoTree text.now file) }
{
    match parse(alloc, text) {
        Ok(unit) => Ok(unit),
        Err(ParseError::Byte(at)) => Err(LoadError::Parse {
            file,
            error: ParseError::Byte(at),
        }),
        Err(ParseError::Syntax(count)) => Err(LoadError::Parse {
            file,
            error: ParseError::Syntax(count),
        }),
        Err(ParseError::OutOfMemory) => Err(LoadError::OutOfMemory),
    }
}

/// The trees of source texts, in order.
pub fn parse_sources(
    alloc: Global,
    names: &[SourceName<'_>],
    texts: &[SourceText],
) -> Result<Vec<ParsedFile>, LoadError>
    requires few { length texts.now < 2 ^ 32 }
    requires same { length names.now ≡ length texts.now }
    requires short { All (λ (t : Text). length t.bytes.items ≤ 1048576) texts.now }
    ensures parsed { IfOk result (λ v. AreParsed (source_files names.now) (texts_of texts.now)
        v.items) }
    ensures cause { IfErr result (OneHasNoTree (texts_of texts.now)) }
{
    let mut all = Vec::new(alloc);
    for (number, source) in names.iter().enumerate() {
        let unit = parse_text(alloc, number as u32, texts[number].bytes.as_slice())?;
        all.push(ParsedFile {
            library: source.library,
            unit,
        })?;
    }
    Ok(all)
}
