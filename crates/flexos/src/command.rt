//! The words of a command.

ghost use Rattle.std.specs.Prelude.{◌≡◌, map, option_map, string_bytes};
ghost use Rattle.flexos.specs.Words.{named_words, migrate_words, migrate_given, build_words};
ghost use Rattle.flexos.specs.Words.{build_given, is_help, text_said, image_said, built_said};
ghost use Rattle.flexos.specs.Words.{source_said, said_by, said_of};

use fx_cmd_base::words::{ExecWords, RunWords, is_file_name};
use fx_cmd_single::words::{SingleWords, single_of};

/// The command `place CONF`: puts the placement of the program of CONF's sources.
#[derive(Clone, Copy, Debug)]
pub struct Place<'a> {
    pub config: &'a str,
}

/// The command `build CONF IMAGE`: writes the image of the program of CONF's sources.
#[derive(Clone, Copy, Debug)]
pub struct Build<'a> {
    pub config: &'a str,
    pub image: &'a str,
}

/// The command `show IMAGE`: puts the text of the image.
#[derive(Clone, Copy, Debug)]
pub struct Show<'a> {
    pub image: &'a str,
}

/// The command `migrate OLD NEW`: writes the image OLD under NEW in today's version.
#[derive(Clone, Copy, Debug)]
pub struct Migrate<'a> {
    pub old: &'a str,
    pub new: &'a str,
}

/// A command.
#[derive(Clone, Copy, Debug)]
pub enum Command<'a> {
    Exec(ExecWords<'a>),
    Run(RunWords<'a>),
    Single(SingleWords<'a>),
    Place(Place<'a>),
    Build(Build<'a>),
    Show(Show<'a>),
    Migrate(Migrate<'a>),
    Help,
    Version,
}

/// The name in a command of one file's name.
fn named<'a>(command: &str, words: &'a [String]) -> Option<&'a str>
    ensures { option_map (λ name. name.now) result ≡ named_words command.now
        (map string_bytes words.now) }
{
    match words {
        [] => None,
        [_] => None,
        [word, name] => {
            if word.as_str() != command || !is_file_name(name.as_str()) {
                return None;
            }
            Some(name.as_str())
        }
        _ => None,
    }
}

/// The command `build` that the words are.
fn build_of(words: &[String]) -> Option<Build<'_>>
    ensures { option_map build_given result ≡ build_words (map string_bytes words.now) }
{
    match words {
        [] => None,
        [_] => None,
        [_, _] => None,
        [word, config, image] => {
            if word.as_str() != "build"
                || !is_file_name(config.as_str())
                || !is_file_name(image.as_str())
            {
                return None;
            }
            Some(Build {
                config: config.as_str(),
                image: image.as_str(),
            })
        }
        _ => None,
    }
}

/// The command `migrate` that the words are.
fn migrate_of(words: &[String]) -> Option<Migrate<'_>>
    ensures { option_map migrate_given result ≡ migrate_words (map string_bytes words.now) }
{
    match words {
        [] => None,
        [_] => None,
        [_, _] => None,
        [word, old, new] => {
            if word.as_str() != "migrate"
                || !is_file_name(old.as_str())
                || !is_file_name(new.as_str())
            {
                return None;
            }
            Some(Migrate {
                old: old.as_str(),
                new: new.as_str(),
            })
        }
        _ => None,
    }
}

/// Whether a word asks for the help.
fn is_help(word: &str) -> bool
    ensures { result ≡ is_help word.now }
{
    word == "help" || word == "--help" || word == "-h"
}

/// The command of one word that the words are.
fn text_command(words: &[String]) -> Option<Command<'_>>
    ensures { said_of result ≡ text_said (map string_bytes words.now) }
{
    match words {
        [] => None,
        [word] => {
            if is_help(word.as_str()) {
                return Some(Command::Help);
            }
            if word.as_str() == "--version" {
                return Some(Command::Version);
            }
            None
        }
        _ => None,
    }
}

/// The command on images, or of one word, that the words are.
#[tactic(auto, using(crate::proofs::Saying::show_said, crate::proofs::Saying::migrate_said, crate::proofs::Saying::text_command_said))]
fn image_command(words: &[String]) -> Option<Command<'_>>
    ensures { said_of result ≡ image_said (map string_bytes words.now) }
{
    match named("show", words) {
        Some(image) => Some(Command::Show(Show { image })),
        None => match migrate_of(words) {
            Some(migrate) => Some(Command::Migrate(migrate)),
            None => text_command(words),
        },
    }
}

/// The command `build`, or a later one, that the words are.
#[tactic(auto, using(crate::proofs::Saying::build_said, crate::proofs::Saying::image_command_said))]
fn built_command(words: &[String]) -> Option<Command<'_>>
    ensures { said_of result ≡ built_said (map string_bytes words.now) }
{
    match build_of(words) {
        Some(build) => Some(Command::Build(build)),
        None => image_command(words),
    }
}

/// The command on sources, or a later one, that the words are.
#[tactic(auto, using(crate::proofs::Saying::single_said, crate::proofs::Saying::place_said, crate::proofs::Saying::built_command_said))]
fn source_command(words: &[String]) -> Option<Command<'_>>
    ensures { said_of result ≡ source_said (map string_bytes words.now) }
{
    match single_of(words) {
        Some(single) => Some(Command::Single(single)),
        None => match named("place", words) {
            Some(config) => Some(Command::Place(Place { config })),
            None => built_command(words),
        },
    }
}

/// The command that the words are.
#[tactic(auto, using(crate::proofs::Saying::exec_said, crate::proofs::Saying::run_said, crate::proofs::Saying::source_command_said))]
pub fn command_of(words: &[String]) -> Option<Command<'_>>
    ensures { said_of result ≡ said_by (map string_bytes words.now) }
{
    match ExecWords::of(words) {
        Some(exec) => Some(Command::Exec(exec)),
        None => match RunWords::of(words) {
            Some(run) => Some(Command::Run(run)),
            None => source_command(words),
        },
    }
}
