ghost use Rattle.std.specs.Prelude.{◌≡◌, ◌<◌, ◌^◌, length, IfOk};
ghost use Rattle.words.specs.Lines.{without_last};
ghost use Rattle.plant_text.specs.Lines.{last_line, IsSpelledBy, IsBegunBy, IsStoppedBy, AreWordsButLast, AreInTheirPlaces};
ghost use Rattle.plant_text.specs.Steps.Lexing.{AreAllWords};

use crate::lexer::Lexer;
use crate::word::Word;
use std::alloc::{AllocError, Global};
use std::marker::Model;

/// The words of a text, in order. Contracts see them with their lines.
#[derive(Debug, Drop)]
pub struct Words {
    words: Vec<Word>,
}

impl Model for Words {
    ghost use Rattle.std.specs.Prelude.{List};
    ghost use Rattle.plant_text.specs.Lines.{WordValue};

    ghost Value = { List WordValue };

    ghost view = { λ w. w.words.items };
}

impl Words {
    /// The words.
    pub fn words(&self) -> &[Word]
        ensures value { result.now ≡ self.now }
        ensures few { length result.now < 2 ^ 63 }
    {
        self.words.as_slice()
    }
}

/// Reads the words of a plant's text. What is no word ends them as `Unknown`: an unknown character, an unfinished
/// comment, a number out of its limits, a body without an end, the body of a 66th program.
pub fn read_words(alloc: Global, text: &str) -> Result<Words, AllocError>
    ensures spelled { IfOk result (IsSpelledBy (without_last 13 text.now)) }
    ensures every { IfOk result (AreAllWords (without_last 13 text.now)) }
    ensures begun { IfOk result (IsBegunBy (without_last 13 text.now)) }
    ensures stops { IfOk result (IsStoppedBy (last_line text.now) (without_last 13 text.now)) }
    ensures known { IfOk result AreWordsButLast }
    ensures placed { IfOk result AreInTheirPlaces }
{
    let mut lexer = Lexer::new(text);
    let mut words = Vec::new(alloc);
    'words: while let Some(word) = lexer.next(alloc)? {
        words.push(word)?;
    }
    Ok(Words { words })
}
