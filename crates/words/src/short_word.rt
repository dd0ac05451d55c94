ghost use Rattle.std.specs.Prelude.{◌≡◌, ◌≤◌, length};
ghost use Rattle.std.specs.Str.{IsUtf8};

use std::marker::Model;

/// How many bytes a short word has at most.
pub const SHORT: usize = 14;

/// A word of at most 14 bytes that lies in place, seen by contracts as its bytes.
#[derive(Debug, Drop)]
pub struct ShortWord {
    length: u8,
    bytes: [u8; SHORT],
}

impl Model for ShortWord {
    ghost use Rattle.std.specs.Prelude.{◌≤◌, List, ℕ, take};
    ghost use Rattle.std.specs.Str.{IsUtf8};

    ghost Value = { List ℕ };

    ghost view = { λ w. take w.length w.bytes };

    ghost invariant = { λ w. (w.length ≤ 14) × IsUtf8 (take w.length w.bytes) };
}

impl ShortWord {
    /// A copy of a text.
    pub fn new(text: &[u8]) -> ShortWord
        requires short { length text.now ≤ 14 }
        requires utf8 { IsUtf8 text.now }
        ensures { result ≡ text.now }
    {
        let mut bytes = [0; SHORT];
        bytes[..text.len()].copy_from_slice(text);
        ShortWord {
            length: text.len() as u8,
            bytes,
        }
    }

    /// The bytes of its characters.
    pub fn as_bytes(&self) -> &[u8]
        ensures value { result.now ≡ self.now }
        ensures utf8 { IsUtf8 result.now }
    {
        &self.bytes[..self.length as usize]
    }

    /// The characters.
    pub fn as_str(&self) -> &str
        ensures { result.now ≡ self.now }
    {
        str::from_utf8(self.as_bytes()).unwrap_or("")
    }

    /// A copy.
    pub fn copy(&self) -> ShortWord
        ensures { result ≡ self.now }
    {
        ShortWord {
            length: self.length,
            bytes: self.bytes,
        }
    }
}
