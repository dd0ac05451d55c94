ghost use Rattle.std.specs.Prelude.{◌≡◌, IfOk};
ghost use Rattle.std.specs.Str.{IsAscii};

use crate::short_word::{SHORT, ShortWord};
use std::alloc::{AllocError, Global};
use std::marker::Model;

/// Where the bytes of a word lie.
#[derive(Debug, Drop)]
enum Letters {
    Short(ShortWord),
    Long(Box<String>),
}

/// A word, seen by contracts as its bytes.
#[derive(Debug, Drop)]
pub struct Text {
    letters: Letters,
}

impl Model for Text {
    ghost use Rattle.std.specs.Prelude.{List, ℕ};
    ghost use Rattle.words.specs.Steps.Letters.{letters_of};

    ghost Value = { List ℕ };

    ghost view = { λ t. letters_of t.letters };
}

impl Text {
    /// A copy of a text.
    pub fn new(alloc: Global, text: &str) -> Result<Text, AllocError>
        ensures { IfOk result (λ t. t ≡ text.now) }
    {
        let letters = if text.len() <= SHORT {
            Letters::Short(ShortWord::new(text.as_bytes()))
        } else {
            let text = String::from_str(alloc, text)?;
            Letters::Long(Box::new(alloc, text)?)
        };
        Ok(Text { letters })
    }

    /// A copy of ASCII characters.
    #[tactic(auto, using(crate::proofs::AsciiTexts::utf8_from_ascii))]
    pub fn from_ascii(alloc: Global, bytes: &[u8]) -> Result<Text, AllocError>
        requires { IsAscii bytes.now }
        ensures { IfOk result (λ t. t ≡ bytes.now) }
    {
        let letters = if bytes.len() <= SHORT {
            Letters::Short(ShortWord::new(bytes))
        } else {
            let text = String::from_utf8_lossy(alloc, bytes)?;
            Letters::Long(Box::new(alloc, text)?)
        };
        Ok(Text { letters })
    }

    /// The characters.
    pub fn as_str(&self) -> &str
        ensures { result.now ≡ self.now }
    {
        match &self.letters {
            Letters::Short(word) => word.as_str(),
            Letters::Long(text) => text.as_str(),
        }
    }

    /// The bytes of its characters.
    pub fn as_bytes(&self) -> &[u8]
        ensures { result.now ≡ self.now }
    {
        match &self.letters {
            Letters::Short(word) => word.as_bytes(),
            Letters::Long(text) => text.as_bytes(),
        }
    }

    /// A copy with memory of its own.
    #[inline(always)]
    pub fn try_copy(&self, alloc: Global) -> Result<Text, AllocError>
        ensures { IfOk result (λ t. t ≡ self.now) }
    {
        match &self.letters {
            Letters::Short(word) => Ok(Text {
                letters: Letters::Short(word.copy()),
            }),
            Letters::Long(text) => Text::new(alloc, text.as_str()),
        }
    }
}
