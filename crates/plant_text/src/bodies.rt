//! The lines of a program's body, up to the one whose only word is END_PROGRAM.

ghost use Rattle.std.specs.Prelude.{◌≡◌, ◌↔◌, IsTrue, Some, MatchOption, length};
ghost use Rattle.words.specs.Lines.{without_last};
ghost use Rattle.plant_text.specs.declared.token.Keyword.TheVariants as key;
ghost use Rattle.plant_text.specs.Words.{keyword};
ghost use Rattle.plant_text.specs.Spelling.{first_line, is_one_line, IsGap, IsEndLine, IsBlankLine, BeginsNoBlock};
ghost use Rattle.plant_text.specs.Steps.Lexing.{begins_block, may_run_on, IsBehindLine, HasNoBlankLine, HasNoBody, IsBehindWholeBody};

use crate::front_word::{behind, letters};
use crate::gaps::behind_gap;
use crate::token::Keyword;
use crate::word_kinds::keyword;

/// The text without its last byte, where that is a carriage return.
pub fn without_return(text: &[u8]) -> &[u8]
    ensures { result.now ≡ without_last 13 text.now }
{
    match text {
        [front @ .., b'\r'] => front,
        _ => text,
    }
}

fn line_len(text: &[u8]) -> usize
    ensures { result ≡ length (first_line text.now) }
{
    text.iter().take_while(|c| **c != b'\n').count()
}

/// Up to the first line feed.
fn first_line(text: &[u8]) -> &[u8]
    ensures { result.now ≡ first_line text.now }
{
    &text[..line_len(text)]
}

/// What is left behind the first line feed. `None`: there is no line feed.
fn behind_line(text: &[u8]) -> Option<&[u8]>
    ensures { MatchOption result (IsTrue (is_one_line text.now)) (λ rest. IsBehindLine text.now rest.now) }
{
    match behind(text, line_len(text)) {
        [_, rest @ ..] => Some(rest),
        [] => None,
    }
}

fn begins_block(keyword: Option<Keyword>) -> bool
    ensures { result ≡ begins_block keyword }
{
    matches!(
        keyword,
        Some(Keyword::Var | Keyword::VarInput | Keyword::VarOutput)
    )
}

/// Whether the next word begins no block of variables.
pub fn begins_no_block(text: &[u8]) -> bool
    ensures { IsTrue result ↔ BeginsNoBlock text.now }
{
    !begins_block(keyword(letters(behind_gap(text))))
}

/// Whether the rest of the line holds no word.
pub fn is_blank_line(text: &[u8]) -> bool
    ensures { IsTrue result ↔ IsGap (without_last 13 (first_line text.now)) }
{
    behind_gap(without_return(first_line(text))).is_empty()
}

/// What is left behind a line that holds no word. `None`: the text begins with no such line.
pub fn behind_blank_line(text: &[u8]) -> Option<&[u8]>
    ensures { MatchOption result (HasNoBlankLine text.now) (λ rest. IsBlankLine text.now rest.now) }
{
    match behind_line(text) {
        Some(rest) if is_blank_line(text) => Some(rest),
        _ => None,
    }
}

fn is_end_program(word: &[u8]) -> bool
    ensures { IsTrue result ↔ (keyword word.now ≡ Some key.EndProgram) }
{
    matches!(keyword(word), Some(Keyword::EndProgram))
}

/// Whether the line may end with this: nothing, a carriage return, or a comment that runs on.
fn may_run_on(text: &[u8]) -> bool
    ensures { result ≡ may_run_on text.now }
{
    matches!(text, [] | [b'\r'] | [b'(', b'*', ..])
}

/// Whether END_PROGRAM is the only word of a line.
fn is_end_line(line: &[u8]) -> bool
    ensures { IsTrue result ↔ IsEndLine line.now }
{
    let rest = behind_gap(line);
    let word = letters(rest);
    is_end_program(word) && may_run_on(behind_gap(behind(rest, word.len())))
}

/// What is left behind a body: from the line of END_PROGRAM on. `None`: there is no such line.
pub fn behind_body(text: &[u8]) -> Option<&[u8]>
    ensures { MatchOption result (HasNoBody text.now) (λ rest. IsBehindWholeBody text.now rest.now) }
{
    let mut rest = text;
    'lines: while !is_end_line(first_line(rest)) {
        rest = behind_line(rest)?;
    }
    Some(rest)
}
