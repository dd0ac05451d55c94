ghost use Rattle.std.specs.Prelude.{IfOk, IfErr};
ghost use Rattle.evaluation.specs.InputTexts.{IsRead, IsFaultOf};
ghost use Rattle.console.specs.FieldWords.{one_text_of};

use evaluation::{InputFault, Inputs};
use std::alloc::Global;

/// The field inputs that the words ADDRESS=VALUE give, taken as one text. Two may stand in one word of the shell.
pub fn read_field_words(alloc: Global, words: &[&str]) -> Result<Inputs, InputFault>
    ensures ok { IfOk result (IsRead (one_text_of words.now)) }
    ensures fault { IfErr result (IsFaultOf (one_text_of words.now)) }
{
    let text = words.join(alloc, " ")?;
    Inputs::read(alloc, text.as_str())
}

/// The first word that gives no field inputs by itself.
pub(crate) fn misspelled_word<'a>(alloc: Global, words: &[&'a str]) -> &'a str {
    for word in words {
        if let Err(InputFault::Syntax) = Inputs::read(alloc, word) {
            return word;
        }
    }
    ""
}

/// How many times the first words are halved at most.
const HALVES: usize = 64;

/// The first word that gives an address a value which one before it gives already: with the words before it alone no address
/// has two.
pub(crate) fn doubled_word<'a>(alloc: Global, words: &[&'a str]) -> &'a str {
    let mut single: usize = 0;
    let mut doubled = words.len();
    for _half in 0..HALVES {
        let middle = single.saturating_add(doubled.saturating_sub(single) / 2);
        if middle == single {
            break;
        }
        match read_field_words(alloc, words.get(..middle).unwrap_or(words)) {
            Err(InputFault::Twice) => doubled = middle,
            _ => single = middle,
        }
    }
    words.get(doubled.saturating_sub(1)).copied().unwrap_or("")
}
