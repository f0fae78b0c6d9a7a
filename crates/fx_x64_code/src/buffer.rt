//! A buffer for one spelling, which takes no memory.

ghost use Rattle.std.specs.Prelude.{◌≡◌, ℕ, ◌+◌, ◌<◌, ◌≤◌, List, [], ◌∷◌, ◌++◌, length, take};
ghost use Rattle.std.specs.Int.{to_le_bytes, w64};
ghost use Rattle.fx_x64_code.specs.Spelling.{le32};

use std::marker::Model;

/// At most 16 bytes.
#[derive(Drop)]
pub struct Buffer {
    bytes: [u8; 16],
    used: usize,
}

impl Model for Buffer {
    ghost Value = { List ℕ };

    ghost view = { λ s. take s.used s.bytes };

    ghost invariant = { λ s. s.used ≤ 16 };
}

impl Buffer {
    /// No bytes.
    pub fn new() -> Buffer
        ensures { result ≡ [] }
    {
        Buffer {
            bytes: [0; 16],
            used: 0,
        }
    }

    /// The bytes.
    pub fn as_slice(&self) -> &[u8]
        ensures { result.now ≡ self.now }
    {
        &self.bytes[..self.used]
    }

    /// Appends a byte.
    pub fn push(&mut self, byte: u8)
        requires { length self.old < 16 }
        ensures { self.new ≡ self.old ++ byte ∷ [] }
    {
        self.bytes[self.used] = byte;
        self.used += 1;
    }

    /// Appends a number of 32 bits, lowest byte first.
    pub fn push_i32(&mut self, value: i32)
        requires { length self.old + 4 ≤ 16 }
        ensures bytes { self.new ≡ self.old ++ le32 value }
        ensures len { length self.new ≡ length self.old + 4 }
    {
        let [a, b, c, d] = value.cast_unsigned().to_le_bytes();
        self.push(a);
        self.push(b);
        self.push(c);
        self.push(d);
    }

    /// Appends a number of 64 bits, lowest byte first.
    pub fn push_u64(&mut self, value: u64)
        requires { length self.old + 8 ≤ 16 }
        ensures { self.new ≡ self.old ++ to_le_bytes w64 value }
    {
        let [a, b, c, d, e, f, g, h] = value.to_le_bytes();
        self.push(a);
        self.push(b);
        self.push(c);
        self.push(d);
        self.push(e);
        self.push(f);
        self.push(g);
        self.push(h);
    }
}
