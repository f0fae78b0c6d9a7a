//! The words of the command `single`.

ghost use Rattle.std.specs.Prelude.{◌≡◌, map, option_map, string_bytes};
ghost use Rattle.fx_cmd_single.specs.Words.{single_behind, single_words, single_given};

use fx_cmd_base::words::{is_file_name, number_of};

/// The command `single CONF [--steps N]`.
#[derive(Clone, Copy, Debug)]
pub struct SingleWords<'a> {
    pub config: &'a str,
    /// The budget of cost, where one is given.
    pub steps: Option<u64>,
}

/// The command of a configuration with the words behind it: none, or `--steps N`.
fn behind<'a>(config: &'a str, words: &'a [String]) -> Option<SingleWords<'a>>
    ensures { option_map single_given result ≡ single_behind config.now (map string_bytes words.now) }
{
    match words {
        [] => Some(SingleWords {
            config,
            steps: None,
        }),
        [flag, value] => {
            if flag.as_str() != "--steps" {
                return None;
            }
            let steps = number_of(value.as_str().as_bytes())?;
            Some(SingleWords {
                config,
                steps: Some(steps),
            })
        }
        _ => None,
    }
}

/// The command `single` that the words are.
pub fn single_of(words: &[String]) -> Option<SingleWords<'_>>
    ensures { option_map single_given result ≡ single_words (map string_bytes words.now) }
{
    match words {
        [] => None,
        [_] => None,
        [command, config, rest @ ..] => {
            if command.as_str() != "single" || !is_file_name(config.as_str()) {
                return None;
            }
            behind(config.as_str(), rest)
        }
    }
}
