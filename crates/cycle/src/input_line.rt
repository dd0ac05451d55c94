//! What a line `INPUT` tells.

ghost use Rattle.std.specs.Prelude.{◌≡◌, drop, IfOk, IfErr};
ghost use Rattle.evaluation.specs.InputTexts.{AreInputs, IsFaultOfWords};
ghost use Rattle.cycle.specs.Field.{words_behind};
ghost use Rattle.cycle.specs.Steps.Words.{texts};

use crate::line_word::without_return;
use evaluation::{InputFault, Inputs, push_words};
use std::alloc::Global;

/// The words behind the first.
fn behind_first<'a, 'b>(words: &'a [&'b [u8]]) -> &'a [&'b [u8]]
    ensures { texts result.now ≡ drop 1 (texts words.now) }
{
    match words {
        [_, behind @ ..] => behind,
        [] => words,
    }
}

/// The inputs that the words behind `INPUT` tell. `line` is without its line feed.
pub fn read_input_line(alloc: Global, line: &[u8]) -> Result<Inputs, InputFault>
    ensures told { IfOk result (λ inputs. AreInputs (words_behind line.now) inputs) }
    ensures fault { IfErr result (λ fault. IsFaultOfWords (words_behind line.now) fault) }
{
    let mut words = Vec::new(alloc);
    push_words(&mut words, without_return(line))?;
    Inputs::of_words(alloc, behind_first(words.as_slice()))
}
