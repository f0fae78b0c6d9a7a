//! Why no image of constant output was built.

ghost use Rattle.std.specs.Prelude.{◌≡◌};
ghost use Rattle.fx_cmd_base.specs.Views.{exec_given};
ghost use Rattle.fx_cmd_exec.specs.Lines.{name_of};

use fx_base::FileError;
use fx_cmd_base::words::ExecWords;
use std::alloc::AllocError;

/// The name of the source.
pub const SOURCE: &str = "a.c";

/// One of the files of the building.
#[derive(Clone, Copy, Debug, PartialEq, Eq)]
pub enum Which {
    Config,
    Source,
    Image,
}

/// Why a program isn't one of constant output.
#[derive(Clone, Copy, Debug, PartialEq, Eq)]
pub enum Other {
    /// The configuration isn't the one document of such programs.
    Config,
    /// The source isn't of their form.
    Source,
}

/// Why no image of constant output was built and written.
#[derive(Clone, Copy, Debug, PartialEq, Eq)]
pub enum Unbuilt {
    /// The program is another one.
    Other(Other),
    /// A file couldn't be read or written.
    FileFault { which: Which, error: FileError },
    OutOfMemory,
}

impl From<AllocError> for Unbuilt {
    ghost use Rattle.std.specs.Prelude.{◌≡◌};
    ghost use Rattle.fx_cmd_exec.specs.declared.unbuilt.Unbuilt.TheVariants.{OutOfMemory};

    ghost from_gives = { λ _ e. e ≡ OutOfMemory };

    fn from(_error: AllocError) -> Unbuilt {
        Unbuilt::OutOfMemory
    }
}

/// The name of one of the files of the building.
pub fn name_of<'a>(words: &ExecWords<'a>, which: Which) -> &'a str
    ensures { result.now ≡ name_of (exec_given words.now) which }
{
    match which {
        Which::Config => words.config,
        Which::Source => SOURCE,
        Which::Image => words.run.image,
    }
}
