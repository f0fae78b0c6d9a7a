//! A program of the input.

use std::alloc::{AllocError, Global};

/// A source text with the number of its library.
#[derive(Drop)]
pub struct Text {
    pub library: u8,
    pub bytes: Vec<u8>,
}

/// What is asked of a program.
#[derive(Clone, Copy)]
pub enum Question {
    Tokens,
    Parse,
    Again,
    Same,
    Check { shown: bool },
}

/// A program of the input, and what is asked of it.
#[derive(Drop)]
pub struct Program {
    pub question: Question,
    pub texts: Vec<Text>,
}

fn question_of(first: &str) -> Question {
    let words = first.trim();
    if words.starts_with("tokens") {
        return Question::Tokens;
    }
    if words.starts_with("parse") {
        return Question::Parse;
    }
    if words.starts_with("again") {
        return Question::Again;
    }
    if words.starts_with("same") {
        return Question::Same;
    }
    let shown = words.starts_with("show");
    Question::Check { shown }
}

// N times the text of a line `N TEXT`.
fn add_repeated(bytes: &mut Vec<u8>, line: &str) -> Result<(), AllocError> {
    let Some((number, text)) = line.split_once(' ') else {
        return Ok(());
    };
    for _ in 0..number.parse::<u32>().unwrap_or(0) {
        bytes.extend_from_slice(text.as_bytes())?;
    }
    Ok(())
}

impl Program {
    /// A program of one empty file.
    pub fn begun(alloc: Global, first: &str) -> Result<Program, AllocError> {
        let mut texts = Vec::new(alloc);
        let bytes = Vec::new(alloc);
        texts.push(Text { library: 0, bytes })?;
        let question = question_of(first);
        Ok(Program { question, texts })
    }

    /// One more line of the input.
    pub fn add(&mut self, alloc: Global, line: &str) -> Result<(), AllocError> {
        if let Some(number) = line.strip_prefix("---") {
            let library = number.trim().parse::<u8>().unwrap_or(0);
            let bytes = Vec::new(alloc);
            self.texts.push(Text { library, bytes })?;
            return Ok(());
        }
        let Some(text) = self.texts.last_mut() else {
            return Ok(());
        };
        match line.strip_prefix("*") {
            Some(repeated) => add_repeated(&mut text.bytes, repeated),
            None => {
                text.bytes.extend_from_slice(line.as_bytes())?;
                text.bytes.push(b'\n')?;
                Ok(())
            }
        }
    }
}
