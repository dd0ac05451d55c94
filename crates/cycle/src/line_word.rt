//! What a line begins with.

ghost use Rattle.std.specs.Prelude.{◌≡◌, IfOk};
ghost use Rattle.words.specs.Lines.{without_last};
ghost use Rattle.cycle.specs.Origins.{is_marked, keyword_of, first_word, word_of_line};
ghost use Rattle.cycle.specs.Steps.Words.{texts};

use evaluation::push_words;
use std::alloc::{AllocError, Global};

/// The word that a line begins with, in either case.
#[derive(Clone, Copy, Debug, PartialEq, Eq)]
pub enum LineWord {
    /// None, or one that begins with `#`.
    Idle,
    /// `INPUT`.
    Input,
    /// `EVAL`.
    Evaluate,
    /// `MESSAGE`.
    Message,
    /// `HELLO`.
    Hello,
    /// `RESTART`.
    Restart,
    /// Any other.
    Other,
}

/// A line without the carriage return at its end.
pub(crate) fn without_return(line: &[u8]) -> &[u8]
    ensures { result.now ≡ without_last 13 line.now }
{
    match line {
        [front @ .., last] if *last == b'\r' => front,
        _ => line,
    }
}

/// Whether a word begins with `#`.
fn is_marked(word: &[u8]) -> bool
    ensures { result ≡ is_marked word.now }
{
    match word {
        [first, ..] => *first == b'#',
        [] => false,
    }
}

/// The keyword that a word is, in either case.
#[tactic(auto, unfolding(crate::specs::Origins::keyword_of))]
fn keyword_of(word: &[u8]) -> LineWord
    ensures { result ≡ keyword_of word.now }
{
    if is_marked(word) {
        LineWord::Idle
    } else if word.eq_ignore_ascii_case(b"INPUT") {
        LineWord::Input
    } else if word.eq_ignore_ascii_case(b"EVAL") {
        LineWord::Evaluate
    } else if word.eq_ignore_ascii_case(b"MESSAGE") {
        LineWord::Message
    } else if word.eq_ignore_ascii_case(b"HELLO") {
        LineWord::Hello
    } else if word.eq_ignore_ascii_case(b"RESTART") {
        LineWord::Restart
    } else {
        LineWord::Other
    }
}

/// The keyword that the first of these words is.
fn first_word(words: &[&[u8]]) -> LineWord
    ensures { result ≡ first_word (texts words.now) }
{
    match words {
        [first, ..] => keyword_of(first),
        [] => LineWord::Idle,
    }
}

/// What a line begins with. `line` is without its line feed.
pub fn word_of_line(alloc: Global, line: &[u8]) -> Result<LineWord, AllocError>
    ensures { IfOk result (λ word. word ≡ word_of_line line.now) }
{
    let mut words = Vec::new(alloc);
    push_words(&mut words, without_return(line))?;
    Ok(first_word(words.as_slice()))
}
