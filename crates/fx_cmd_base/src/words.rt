//! The words of the commands `run` and `exec`.

ghost use Rattle.std.specs.Prelude.{◌≡◌, ℕ, ◌<◌, List, Option, Some, None, option_map, map, string_bytes, codes};
ghost use Rattle.fx_cmd_base.specs.Words.{next_number, digits_number, number_of, is_file_name, device_of, plug_of};

/// The options of a run, those that were given.
#[derive(Clone, Copy, Debug)]
pub struct Options<'a> {
    /// The most turns.
    pub steps: Option<u64>,
    /// The file of the schedule.
    pub schedule: Option<&'a str>,
    /// The device that is unplugged, and the number of its operations before.
    pub unplug: Option<(u16, u64)>,
}

/// The command `run IMAGE`.
#[derive(Clone, Copy, Debug)]
pub struct RunWords<'a> {
    pub image: &'a str,
    pub options: Options<'a>,
}

/// The command `exec CONF IMAGE`: the configuration whose image is built, and the run of that image.
#[derive(Clone, Copy, Debug)]
pub struct ExecWords<'a> {
    pub config: &'a str,
    pub run: RunWords<'a>,
}

/// The number with one more decimal digit behind it.
#[tactic(auto, using(crate::proofs::Numbers::below, crate::proofs::Numbers::above, crate::proofs::Numbers::past, crate::proofs::Numbers::fits))]
fn next_number(so_far: u64, digit: u8) -> Option<u64>
    ensures { result ≡ next_number so_far digit }
{
    if digit < 48 {
        return None;
    }
    if 57 < digit {
        return None;
    }
    let unit = u64::from(digit - 48);
    if (u64::MAX - unit) / 10 < so_far {
        return None;
    }
    Some(so_far * 10 + unit)
}

/// The number of some decimal digits, behind others.
fn digits_number(so_far: u64, digits: &[u8]) -> Option<u64>
    ensures { result ≡ digits_number so_far digits.now }
{
    match digits {
        [] => Some(so_far),
        [digit, rest @ ..] => match next_number(so_far, *digit) {
            None => None,
            Some(number) => digits_number(number, rest),
        },
    }
}

/// The number that a word is: `0`, or digits without a leading zero, below 2^64.
pub fn number_of(word: &[u8]) -> Option<u64>
    ensures { result ≡ number_of word.now }
{
    match word {
        [] => None,
        [_] => digits_number(0, word),
        [first, ..] => {
            if *first == b'0' {
                None
            } else {
                digits_number(0, word)
            }
        }
    }
}

/// Whether a word may name a file: it has a byte, and doesn't begin with a dash.
pub fn is_file_name(word: &str) -> bool
    ensures { result ≡ is_file_name word.now }
{
    let bytes = word.as_bytes();
    !bytes.is_empty() && bytes[0] != b'-'
}

/// The device of a number, 1 to 15.
fn device_of(number: u64) -> Option<u16>
    ensures { result ≡ device_of number }
{
    if 1 <= number && number <= 15 {
        Some(number as u16)
    } else {
        None
    }
}

/// The device that is to be unplugged, and after how many of its operations.
fn plug_of(device: &str, count: &str) -> Option<(u16, u64)>
    ensures { result ≡ plug_of device.now count.now }
{
    let number = number_of(device.as_bytes())?;
    let device = device_of(number)?;
    let count = number_of(count.as_bytes())?;
    Some((device, count))
}

impl<'a> Options<'a> {
    ghost use Rattle.fx_cmd_base.specs.Views.{given};
    ghost use Rattle.fx_cmd_base.specs.Words.{Given, none_given, with_steps, with_schedule, with_unplug, with_option, options_of};

    /// No option.
    pub fn none() -> Options<'a>
        ensures { given result ≡ none_given }
    {
        Options {
            steps: None,
            schedule: None,
            unplug: None,
        }
    }

    /// The options with the most turns.
    fn with_steps(self, word: &str) -> Option<Options<'a>>
        ensures { option_map given result ≡ with_steps word.now (given self.entry) }
    {
        if self.steps.is_some() {
            return None;
        }
        let steps = number_of(word.as_bytes())?;
        Some(Options {
            steps: Some(steps),
            schedule: self.schedule,
            unplug: self.unplug,
        })
    }

    /// The options with the file of the schedule.
    fn with_schedule(self, word: &'a str) -> Option<Options<'a>>
        ensures { option_map given result ≡ with_schedule word.now (given self.entry) }
    {
        if self.schedule.is_some() {
            return None;
        }
        if !is_file_name(word) {
            return None;
        }
        Some(Options {
            steps: self.steps,
            schedule: Some(word),
            unplug: self.unplug,
        })
    }

    /// The options with a device to be unplugged.
    fn with_unplug(self, device: &str, count: &str) -> Option<Options<'a>>
        ensures { option_map given result ≡ with_unplug device.now count.now (given self.entry) }
    {
        if self.unplug.is_some() {
            return None;
        }
        let unplug = plug_of(device, count)?;
        Some(Options {
            steps: self.steps,
            schedule: self.schedule,
            unplug: Some(unplug),
        })
    }

    /// The options with one of one value.
    fn with_option(self, flag: &str, value: &'a str) -> Option<Options<'a>>
        ensures { option_map given result ≡ with_option flag.now value.now (given self.entry) }
    {
        if flag == "--steps" {
            self.with_steps(value)
        } else if flag == "--schedule" {
            self.with_schedule(value)
        } else {
            None
        }
    }

    /// The options with those of these words.
    fn with_words(self, words: &'a [String]) -> Option<Options<'a>>
        ensures { option_map given result ≡ options_of (map string_bytes words.now)
            (given self.entry) }
    {
        match words {
            [] => Some(self),
            [_] => None,
            [flag, value] => self.with_option(flag.as_str(), value.as_str()),
            [flag, value, next, rest @ ..] => {
                if flag.as_str() == "--unplug" {
                    let options = self.with_unplug(value.as_str(), next.as_str())?;
                    options.with_words(rest)
                } else {
                    let options = self.with_option(flag.as_str(), value.as_str())?;
                    options.with_words(&words[2..])
                }
            }
        }
    }
}

impl<'a> RunWords<'a> {
    ghost use Rattle.fx_cmd_base.specs.Views.{run_given};
    ghost use Rattle.fx_cmd_base.specs.Words.{run_behind, run_words};

    /// The image and the options that the words behind a command are.
    fn behind(words: &'a [String]) -> Option<RunWords<'a>>
        ensures { option_map run_given result ≡ run_behind (map string_bytes words.now) }
    {
        match words {
            [] => None,
            [image, rest @ ..] => {
                if !is_file_name(image.as_str()) {
                    return None;
                }
                let options = Options::none().with_words(rest)?;
                Some(RunWords {
                    image: image.as_str(),
                    options,
                })
            }
        }
    }

    /// The command `run` that the words are.
    pub fn of(words: &'a [String]) -> Option<RunWords<'a>>
        ensures { option_map run_given result ≡ run_words (map string_bytes words.now) }
    {
        match words {
            [] => None,
            [command, rest @ ..] => {
                if command.as_str() == "run" {
                    RunWords::behind(rest)
                } else {
                    None
                }
            }
        }
    }
}

impl<'a> ExecWords<'a> {
    ghost use Rattle.fx_cmd_base.specs.Views.{exec_given};
    ghost use Rattle.fx_cmd_base.specs.Words.{exec_words};

    /// The command `exec` that the words are.
    pub fn of(words: &'a [String]) -> Option<ExecWords<'a>>
        ensures { option_map exec_given result ≡ exec_words (map string_bytes words.now) }
    {
        match words {
            [] => None,
            [_] => None,
            [command, config, rest @ ..] => {
                if command.as_str() != "exec" || !is_file_name(config.as_str()) {
                    return None;
                }
                let run = RunWords::behind(rest)?;
                Some(ExecWords {
                    config: config.as_str(),
                    run,
                })
            }
        }
    }
}
