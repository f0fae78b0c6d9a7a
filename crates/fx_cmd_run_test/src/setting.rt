//! What a run finds.

use crate::bytes::{bytes_of, replaced};
use std::alloc::{AllocError, Global};

/// The room of the output where none is told.
const ROOM: u64 = 64;

/// The numbers of the calls that fail, 0 for none.
#[derive(Clone, Copy, Debug, PartialEq, Eq)]
pub struct Failing {
    pub files: u64,
    pub input: u64,
    pub err: u64,
    pub counter: u64,
}

impl Failing {
    /// No call fails.
    fn none() -> Failing {
        Failing {
            files: 0,
            input: 0,
            err: 0,
            counter: 0,
        }
    }

    /// The failing calls with one more.
    fn with(self, words: &str) -> Failing {
        let (what, number) = words.split_once(' ').unwrap_or((words, ""));
        let number = number.parse::<u64>().unwrap_or(0);
        match what {
            "files" => Failing {
                files: number,
                ..self
            },
            "input" => Failing {
                input: number,
                ..self
            },
            "err" => Failing {
                err: number,
                ..self
            },
            _ => Failing {
                counter: number,
                ..self
            },
        }
    }
}

/// What a run finds: its files, its input, the room of its output and the calls that fail.
#[derive(Drop)]
pub struct Setting {
    image: Vec<u8>,
    pub file: Vec<u8>,
    pub schedule: Vec<u8>,
    pub input: Vec<u8>,
    pub room: u64,
    pub failing: Failing,
}

impl Setting {
    /// Empty files, no input, and nothing fails.
    pub fn new(alloc: Global) -> Setting {
        Setting {
            image: Vec::new(alloc),
            file: Vec::new(alloc),
            schedule: Vec::new(alloc),
            input: Vec::new(alloc),
            room: ROOM,
            failing: Failing::none(),
        }
    }

    /// Does what a command says that is no run.
    pub fn set(&mut self, alloc: Global, name: &str, rest: &str) -> Result<(), AllocError> {
        match name {
            "image" => {
                self.image = bytes_of(alloc, rest)?;
                self.file = Vec::from_slice(alloc, &self.image)?;
            }
            "put" => self.file = replaced(alloc, &self.image, rest)?,
            "schedule" => self.schedule = bytes_of(alloc, rest)?,
            "input" => self.input = bytes_of(alloc, rest)?,
            "room" => self.room = rest.parse::<u64>().unwrap_or(ROOM),
            "fail" => self.failing = self.failing.with(rest),
            _ => {}
        }
        Ok(())
    }

    /// What holds for one run alone is over.
    pub fn rest(&mut self) {
        self.room = ROOM;
        self.failing = Failing::none();
    }
}
