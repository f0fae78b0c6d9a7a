//! A case of the input: files, words, input, and what fails.

use std::alloc::{AllocError, Global};

/// A file's name and its text.
#[derive(Drop)]
pub struct TextFile {
    pub name: String,
    pub text: String,
}

/// The name of the configuration, and that of the source.
const CONFIG: &str = "c.toml";

const SOURCE: &str = "a.c";

/// The configuration of one compartment with one library.
const ONE_COMPARTMENT: &str =
    "mechanism = \"call\"\n[[library]]\nname = \"a\"\nfiles = [\"a.c\"]\n[[compartment]]\nname = \"a\"\nlibraries = [\"a\"]\n";

/// The most bytes that a sink takes where no number is given.
pub const ROOM: u64 = 16_777_216;

/// A case that is read line by line.
#[derive(Drop)]
pub struct Case {
    pub title: String,
    pub words: Vec<String>,
    /// The lines before those of the configuration of one compartment.
    first: String,
    /// The files that the case names; the first is the source.
    pub files: Vec<TextFile>,
    pub input: String,
    /// The calls of the files that fail.
    pub failing_files: Vec<u64>,
    /// The pieces of the error stream that fail.
    pub failing_lines: Vec<u64>,
    /// The calls of the counter, device 2, that fail.
    pub failing_counts: Vec<u64>,
    /// The readings of the input that fail.
    pub failing_reads: Vec<u64>,
    /// The most bytes that the output takes.
    pub room: u64,
}

fn number(text: &str) -> u64 {
    text.trim().parse::<u64>().unwrap_or(0)
}

impl Case {
    pub fn new(alloc: Global, title: &str) -> Result<Case, AllocError> {
        let mut case = Case {
            title: String::from_str(alloc, title)?,
            words: Vec::new(alloc),
            first: String::new(alloc),
            files: Vec::new(alloc),
            input: String::new(alloc),
            failing_files: Vec::new(alloc),
            failing_lines: Vec::new(alloc),
            failing_counts: Vec::new(alloc),
            failing_reads: Vec::new(alloc),
            room: ROOM,
        };
        case.begin(alloc, SOURCE)?;
        Ok(case)
    }

    /// Begins a file.
    fn begin(&mut self, alloc: Global, name: &str) -> Result<(), AllocError> {
        let name = String::from_str(alloc, name)?;
        let text = String::new(alloc);
        self.files.push(TextFile { name, text })?;
        Ok(())
    }

    /// Takes the next line.
    pub fn add(&mut self, alloc: Global, line: &str) -> Result<(), AllocError> {
        if let Some(name) = line.strip_prefix("---") {
            return self.begin(alloc, name.trim());
        }
        if let Some(words) = line.strip_prefix(">>>") {
            for word in words.split_whitespace() {
                self.words.push(String::from_str(alloc, word)?)?;
            }
            return Ok(());
        }
        if let Some(text) = line.strip_prefix("+++") {
            self.first.push_str(text.trim())?;
            return self.first.push_str("\n");
        }
        if let Some(text) = line.strip_prefix("<<<") {
            return self.input.push_str(text.trim());
        }
        if let Some(text) = line.strip_prefix("%%%") {
            self.failing_files.push(number(text))?;
            return Ok(());
        }
        if let Some(text) = line.strip_prefix("$$$") {
            self.failing_lines.push(number(text))?;
            return Ok(());
        }
        if let Some(text) = line.strip_prefix("!!!") {
            self.failing_counts.push(number(text))?;
            return Ok(());
        }
        if let Some(text) = line.strip_prefix("???") {
            self.failing_reads.push(number(text))?;
            return Ok(());
        }
        if let Some(text) = line.strip_prefix("###") {
            self.room = number(text);
            return Ok(());
        }
        match self.files.last_mut() {
            Some(file) => {
                file.text.push_str(line)?;
                file.text.push_str("\n")
            }
            None => Ok(()),
        }
    }

    /// Adds what a case leaves out: the words of a run without a budget, and the configuration.
    pub fn complete(&mut self, alloc: Global) -> Result<(), AllocError> {
        if self.words.is_empty() {
            self.words.push(String::from_str(alloc, "single")?)?;
            self.words.push(String::from_str(alloc, CONFIG)?)?;
        }
        if !self.files.iter().any(|file| file.name.as_str() == CONFIG) {
            self.begin(alloc, CONFIG)?;
            if let Some(file) = self.files.last_mut() {
                file.text.push_str(self.first.as_str())?;
                file.text.push_str(ONE_COMPARTMENT)?;
            }
        }
        Ok(())
    }
}
