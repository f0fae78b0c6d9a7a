//! A text that grows at its end.

ghost use Rattle.std.specs.Prelude.{◌≡◌, ◌++◌, ◌∷◌, [], OnOk, IfOk, length, string_bytes};
ghost use Rattle.std.specs.Fmt.{decimal};
ghost use Rattle.fx_cmd_base.specs.Hex.{hex};
ghost use Rattle.fx_cmd_show.specs.Words.{hex_8};

use fx_cmd_base::{put_digits, put_hex};
use fx_image::{Bytes, Name};
use std::alloc::{AllocError, Global};
use std::marker::Model;

/// A text of bytes that grows at its end. Contracts see its bytes.
#[derive(Drop)]
pub struct Text {
    alloc: Global,
    bytes: Vec<u8>,
}

impl Model for Text {
    ghost use Rattle.std.specs.Prelude.{List, ℕ};

    ghost Value = { List ℕ };

    ghost view = { λ a. a.bytes.items };
}

impl Text {
    /// The empty text.
    pub fn new(alloc: Global) -> Text
        ensures { result ≡ [] }
    {
        Text {
            alloc,
            bytes: Vec::new(alloc),
        }
    }

    /// Its bytes.
    pub fn into_bytes(self) -> Vec<u8>
        ensures { result.items ≡ self }
    {
        let Text { alloc: _, bytes } = self;
        bytes
    }

    /// Adds bytes.
    pub fn put(&mut self, bytes: &[u8]) -> Result<(), AllocError>
        ensures { OnOk result (self.new ≡ self.old ++ bytes.now) }
    {
        self.bytes.extend_from_slice(bytes)
    }

    /// Adds a name.
    pub fn put_name(&mut self, name: &Name) -> Result<(), AllocError>
        ensures { OnOk result (self.new ≡ self.old ++ name.now) }
    {
        self.put(name.as_slice())
    }

    /// Adds words.
    pub fn put_words(&mut self, words: &str) -> Result<(), AllocError>
        ensures { OnOk result (self.new ≡ self.old ++ words.now) }
    {
        self.put(words.as_bytes())
    }

    /// Ends the line.
    pub fn end_line(&mut self) -> Result<(), AllocError>
        ensures { OnOk result (self.new ≡ self.old ++ 10 ∷ []) }
    {
        self.bytes.push(b'\n')?;
        Ok(())
    }

    /// Adds a number in decimal digits.
    pub fn put_decimal(&mut self, number: u64) -> Result<(), AllocError>
        ensures { OnOk result (self.new ≡ self.old ++ decimal number) }
    {
        let text = format!(in self.alloc; "{number}")?;
        self.put(text.as_bytes())
    }

    /// Adds the number of some bytes.
    pub fn put_length(&mut self, bytes: &Bytes) -> Result<(), AllocError>
        ensures { OnOk result (self.new ≡ self.old ++ decimal (length bytes.now)) }
    {
        self.put_decimal(bytes.len() as u64)
    }

    /// Adds an address in 16 hexadecimal digits.
    pub fn put_address(&mut self, address: u64) -> Result<(), AllocError>
        ensures { OnOk result (self.new ≡ self.old ++ hex address) }
    {
        put_hex(&mut self.bytes, address)
    }

    /// Adds a value of 32 bits in 8 hexadecimal digits.
    #[tactic(auto, unfolding(crate::specs::Words::hex_8))]
    pub fn put_value(&mut self, value: u32) -> Result<(), AllocError>
        ensures { OnOk result (self.new ≡ self.old ++ hex_8 value) }
    {
        put_digits(&mut self.bytes, 8, u64::from(value))
    }
}
