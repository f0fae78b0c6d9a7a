//! The source files that a configuration names.

ghost use Rattle.std.specs.Prelude.{◌≡◌, ◌≤◌, ◌++◌, OnOk, IfOk, length};
ghost use Rattle.fx_cmd_load.specs.Named.{source_file, source_files, in_library, from_library};

use fx_config::{FileName, Library};
use std::alloc::{AllocError, Global};

/// A source file that a configuration names, with the number of its library.
#[derive(Clone, Copy, Drop)]
pub struct SourceName<'a> {
    pub library: u8,
    pub name: &'a FileName,
}

// Appends the files of a library.
fn push_files<'a>(
    all: &mut Vec<SourceName<'a>>,
    library: u8,
    files: &'a [FileName],
) -> Result<(), AllocError>
    ensures { OnOk result (source_files all.new.items ≡ source_files all.old.items ++ in_library
        library files.now) }
{
    for name in files {
        all.push(SourceName { library, name })?;
    }
    Ok(())
}

/// The source files of the libraries, in order.
pub fn source_names(alloc: Global, libraries: &[Library]) -> Result<Vec<SourceName<'_>>, AllocError>
    requires { length libraries.now ≤ 64 }
    ensures { IfOk result (λ v. source_files v.items ≡ from_library 0 libraries.now) }
{
    let mut all = Vec::new(alloc);
    for (number, library) in libraries.iter().enumerate() {
        push_files(&mut all, number as u8, library.files.as_slice())?;
    }
    Ok(all)
}
