//! The line that the command ends with, and its status.

ghost use Rattle.std.specs.Prelude.{◌≡◌, ◌++◌, ◌∷◌, [], IfOk, codes, string_bytes};
ghost use Rattle.std.specs.Fmt.{decimal};
ghost use Rattle.fx_cmd_base.specs.Views.{run_given};
ghost use Rattle.fx_cmd_run.specs.Lines.{name_of, image_words, no_image_words, unbegun_words, unbegun_status, came_status, came_line};

use crate::command::Finished;
use crate::load::{Unbegun, Which};
use fx_cmd_base::file_fault;
use fx_cmd_base::words::RunWords;
use fx_image::ImageError;
use std::alloc::{AllocError, Global};

/// The name of one of the files that a run reads.
fn name_of<'a>(words: &RunWords<'a>, which: Which) -> &'a str
    ensures { result.now ≡ name_of (run_given words.now) which }
{
    match which {
        Which::Image => words.image,
        Which::Schedule => match words.options.schedule {
            Some(name) => name,
            None => "",
        },
    }
}

/// The words of a refused image.
fn image_words(alloc: Global, error: ImageError) -> Result<String, AllocError>
    ensures { IfOk result (λ s. string_bytes s ≡ image_words error) }
{
    match error {
        ImageError::Magic => String::from_str(alloc, "refused: image Magic"),
        ImageError::Version => String::from_str(alloc, "refused: image Version"),
        ImageError::Short => String::from_str(alloc, "refused: image Short"),
        ImageError::Extra => String::from_str(alloc, "refused: image Extra"),
        ImageError::Field(number) => format!(in alloc; "refused: image Field {number}"),
        ImageError::KeySequence(place) => format!(in alloc; "refused: image KeySequence {place}"),
        ImageError::OutOfMemory => String::from_str(alloc, "out of memory"),
    }
}

/// Why there is no image, of the file of this name.
pub fn no_image_words(alloc: Global, name: &str, why: Unbegun) -> Result<String, AllocError>
    ensures { IfOk result (λ s. string_bytes s ≡ no_image_words name.now why) }
{
    match why {
        Unbegun::Unread { error, .. } => file_fault(alloc, name, error),
        Unbegun::Refused(error) => image_words(alloc, error),
        Unbegun::OutOfMemory => String::from_str(alloc, "out of memory"),
    }
}

/// The words of a run that wasn't begun.
fn unbegun_words(alloc: Global, words: &RunWords<'_>, why: Unbegun) -> Result<String, AllocError>
    ensures { IfOk result (λ s. string_bytes s ≡ unbegun_words (run_given words.now) why) }
{
    match why {
        Unbegun::Unread { which, .. } => no_image_words(alloc, name_of(words, which), why),
        Unbegun::Refused(_) | Unbegun::OutOfMemory => no_image_words(alloc, words.image, why),
    }
}

/// The line of a run that wasn't begun.
fn unbegun_line(alloc: Global, words: &RunWords<'_>, why: Unbegun) -> Result<Vec<u8>, AllocError>
    ensures { IfOk result (λ v. v.items ≡ unbegun_words (run_given words.now) why ++ 10 ∷ []) }
{
    let mut line = unbegun_words(alloc, words, why)?;
    line.push_str("\n")?;
    Ok(line.into_bytes())
}

/// The status of a run that wasn't begun, or where there is no image.
pub fn unbegun_status(why: Unbegun) -> u8
    ensures { result ≡ unbegun_status why }
{
    match why {
        Unbegun::Unread { .. } => 4,
        Unbegun::Refused(_) => 3,
        Unbegun::OutOfMemory => 6,
    }
}

/// The status that the command ends with.
pub fn status(came: &Result<Finished, Unbegun>) -> u8
    ensures { result ≡ came_status came.now }
{
    match came {
        Ok(done) => done.verdict.status(),
        Err(why) => unbegun_status(*why),
    }
}

/// The line that the command ends with, ended by a line feed.
pub fn line(
    alloc: Global,
    words: &RunWords<'_>,
    came: &Result<Finished, Unbegun>,
) -> Result<Vec<u8>, AllocError>
    ensures { IfOk result (λ v. v.items ≡ came_line (run_given words.now) came.now) }
{
    match came {
        Ok(done) => done.verdict.line(alloc, &done.image),
        Err(why) => unbegun_line(alloc, words, *why),
    }
}
