//! A case of the input: files, and which calls of them fail.

use std::alloc::{AllocError, Global};

/// A file's name and its text.
#[derive(Drop)]
pub struct TextFile {
    pub name: String,
    pub text: String,
}

/// A case that is read line by line.
#[derive(Drop)]
pub struct Case {
    pub title: String,
    pub files: Vec<TextFile>,
    pub failing: Vec<u64>,
}

// Appends so many lines, each of the text, its number and a semicolon.
fn push_numbered(alloc: Global, text: &mut String, words: &str) -> Result<(), AllocError> {
    let Some((count, before)) = words.trim().split_once(" ") else {
        return Ok(());
    };
    for number in 0..count.parse::<u32>().unwrap_or(0) {
        let line = format!(in alloc; "{before}{number};\n")?;
        text.push_str(line.as_str())?;
    }
    Ok(())
}

impl Case {
    pub fn new(alloc: Global, title: &str) -> Result<Case, AllocError> {
        Ok(Case {
            title: String::from_str(alloc, title)?,
            files: Vec::new(alloc),
            failing: Vec::new(alloc),
        })
    }

    /// Takes the next line.
    pub fn add(&mut self, alloc: Global, line: &str) -> Result<(), AllocError> {
        if let Some(name) = line.strip_prefix("---") {
            let name = String::from_str(alloc, name.trim())?;
            let text = String::new(alloc);
            self.files.push(TextFile { name, text })?;
            return Ok(());
        }
        if let Some(number) = line.strip_prefix("!!!") {
            self.failing
                .push(number.trim().parse::<u64>().unwrap_or(0))?;
            return Ok(());
        }
        let Some(file) = self.files.last_mut() else {
            return Ok(());
        };
        match line.strip_prefix("***") {
            Some(words) => push_numbered(alloc, &mut file.text, words),
            None => {
                file.text.push_str(line)?;
                file.text.push_str("\n")
            }
        }
    }
}
