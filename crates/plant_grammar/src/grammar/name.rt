ghost use Rattle.std.specs.Prelude.{◌≡◌, IfOk};
ghost use Rattle.plant_grammar.specs.Names.{is_named};

use crate::names::is_named;
use std::alloc::{AllocError, Global};
use std::marker::Model;
use words::Text;

/// A name as it is written, and the line that it stands on. Contracts see its characters.
#[derive(Drop)]
pub struct Name {
    text: Text,
    line: u64,
}

impl Model for Name {
    ghost use Rattle.std.specs.Prelude.{List, ℕ};

    ghost Value = { List ℕ };

    ghost view = { λ n. n.text };
}

impl Name {
    /// A name that stands on a line.
    pub fn new(text: Text, line: u64) -> Name
        ensures { result ≡ text }
    {
        Name { text, line }
    }

    /// The characters.
    pub fn as_str(&self) -> &str
        ensures { result.now ≡ self.now }
    {
        self.text.as_str()
    }

    /// Whether both are one name, whatever the case of their letters.
    pub fn is_same(&self, other: &Name) -> bool
        ensures { result ≡ is_named self.now other.now }
    {
        is_named(self.as_str(), other.as_str())
    }

    /// The number of the line.
    pub fn line(&self) -> u64 {
        self.line
    }

    /// A copy of the characters with memory of its own.
    pub fn try_text(&self, alloc: Global) -> Result<Text, AllocError>
        ensures { IfOk result (λ t. t ≡ self.now) }
    {
        self.text.try_copy(alloc)
    }
}
