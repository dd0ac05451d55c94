ghost use Rattle.std.specs.Prelude.{◌≡◌, ◌↔◌, IsTrue};
ghost use Rattle.plant_text.specs.declared.token.Token.TheVariants as token;
ghost use Rattle.words.specs.declared.address.Address.{Address};
ghost use Rattle.std_blocks.specs.declared.block_type.BlockType.{BlockType};

use crate::token::{Keyword, Punctuation, Token};
use std::marker::Model;

/// A word, and the line that it begins on. Contracts see both.
#[derive(Debug, Drop)]
pub struct Word {
    token: Token,
    line: u64,
}

impl Model for Word {
    ghost use Rattle.plant_text.specs.Lines.{WordValue};

    ghost Value = { WordValue };

    ghost view = { λ w. record { token = w.token; line = w.line } };
}

impl Word {
    /// A word that begins on a line.
    pub fn new(token: Token, line: u64) -> Word
        ensures { result ≡ record { token = token; line = line } }
    {
        Word { token, line }
    }

    /// What the word is.
    pub fn token(&self) -> &Token
        ensures { result.now ≡ self.now.token }
    {
        &self.token
    }

    /// The number of the line.
    pub fn line(&self) -> u64
        ensures { result ≡ self.now.line }
    {
        self.line
    }

    /// Whether it is a keyword.
    pub fn is_keyword(&self, keyword: Keyword) -> bool
        ensures { IsTrue result ↔ self.now.token ≡ token.Keyword keyword }
    {
        match self.token {
            Token::Keyword(mine) => mine == keyword,
            _ => false,
        }
    }

    /// Whether it is a mark.
    pub fn is_punctuation(&self, punctuation: Punctuation) -> bool
        ensures { IsTrue result ↔ self.now.token ≡ token.Punctuation punctuation }
    {
        match self.token {
            Token::Punctuation(mine) => mine == punctuation,
            _ => false,
        }
    }

    /// Whether it is a field address.
    pub fn is_address(&self) -> bool
        ensures { IsTrue result ↔ (a : Address) × (self.now.token ≡ token.Address a) }
    {
        matches!(self.token, Token::Address(_))
    }

    /// Whether it is the type of a standard block.
    pub fn is_block_type(&self) -> bool
        ensures { IsTrue result ↔ (b : BlockType) × (self.now.token ≡ token.Block b) }
    {
        matches!(self.token, Token::Block(_))
    }
}
