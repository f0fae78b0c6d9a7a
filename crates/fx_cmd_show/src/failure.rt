//! Why an image was not shown, with the status and the line of that.

ghost use Rattle.std.specs.Prelude.{◌≡◌, ◌++◌, ◌∷◌, [], IfOk, string_bytes};
ghost use Rattle.fx_cmd_show.specs.Failures.{unshown_status, unshown_words};

use fx_cmd_run::line::{no_image_words, unbegun_status};
use fx_cmd_run::load::Unbegun;
use std::alloc::{AllocError, Global};

/// Why an image was not shown. The first step of the work that fails decides.
#[derive(Clone, Copy, Debug)]
pub enum Unshown {
    /// There is no image under the name.
    NoImage(Unbegun),
    /// The output did not take the whole text.
    WriteFault,
    /// Memory ran out.
    OutOfMemory,
}

impl Unshown {
    /// The status that the command ends with.
    pub fn status(self) -> u8
        ensures { result ≡ unshown_status self }
    {
        match self {
            Unshown::NoImage(why) => unbegun_status(why),
            Unshown::WriteFault => 5,
            Unshown::OutOfMemory => 6,
        }
    }

    fn words(self, alloc: Global, name: &str) -> Result<String, AllocError>
        ensures { IfOk result (λ s. string_bytes s ≡ unshown_words name.now self) }
    {
        match self {
            Unshown::NoImage(why) => no_image_words(alloc, name, why),
            Unshown::WriteFault => String::from_str(alloc, "write fault"),
            Unshown::OutOfMemory => String::from_str(alloc, "out of memory"),
        }
    }

    /// The line that the command ends with, ended by a line feed.
    pub fn line(self, alloc: Global, name: &str) -> Result<String, AllocError>
        ensures { IfOk result (λ s. string_bytes s ≡ unshown_words name.now self ++ 10 ∷ []) }
    {
        let mut line = self.words(alloc, name)?;
        line.push_str("\n")?;
        Ok(line)
    }
}
