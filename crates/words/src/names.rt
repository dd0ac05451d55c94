//! What names look like.

ghost use Rattle.std.specs.Prelude.{◌==◌, IfSome, position, ◌≡◌, ◌<◌, length};
ghost use Rattle.words.specs.Chars.{is_letter_or_digit, is_rest, block_type, is_identifier, is_value_word, is_program_word, is_resource_word, is_task_word, is_reserved, is_plain_name, is_name, is_word_char, is_operand};

use crate::durations::is_duration;
use crate::numbers::is_number;
use std_blocks::BlockType;

fn is_letter_or_digit(c: u8) -> bool
    ensures { result ≡ is_letter_or_digit c }
{
    c.is_ascii_alphanumeric()
}

/// Whether a character is one of a drawing's words: a letter, a digit, `_`, `.` or `#`.
pub fn is_word_char(c: u8) -> bool
    ensures { result ≡ is_word_char c }
{
    c.is_ascii_alphanumeric() || c == b'_' || c == b'.' || c == b'#'
}

/// Letters, digits and single underscores, no underscore last.
fn is_rest(word: &[u8]) -> bool
    ensures { result ≡ is_rest word.now }
{
    let mut rest = word;
    'chars: while let [c, next, ..] = rest {
        if !(is_letter_or_digit(*c) || (*c == b'_' && *next != b'_')) {
            return false;
        }
        rest = &rest[1..];
    }
    match rest {
        [c] => is_letter_or_digit(*c),
        _ => true,
    }
}

/// Whether a word is an identifier: ASCII letters, digits and single underscores, no digit first and no underscore last.
/// A reserved word is one, too.
#[tactic(auto, unfolding(crate::specs::Chars::is_identifier))]
pub fn is_identifier(word: &[u8]) -> bool
    ensures { result ≡ is_identifier word.now }
{
    !word.is_empty() && !word[0].is_ascii_digit() && is_rest(word)
}

/// The block type that a word names, whatever the case of its letters. `None`: it names none.
#[tactic(auto, unfolding(crate::specs::Chars::block_type))]
pub fn block_type(word: &[u8]) -> Option<BlockType>
    ensures { result ≡ block_type word.now }
{
    if word.eq_ignore_ascii_case(b"SR") {
        Some(BlockType::SR)
    } else if word.eq_ignore_ascii_case(b"RS") {
        Some(BlockType::RS)
    } else if word.eq_ignore_ascii_case(b"CTU") {
        Some(BlockType::CTU)
    } else if word.eq_ignore_ascii_case(b"CTD") {
        Some(BlockType::CTD)
    } else if word.eq_ignore_ascii_case(b"CTUD") {
        Some(BlockType::CTUD)
    } else if word.eq_ignore_ascii_case(b"TP") {
        Some(BlockType::TP)
    } else if word.eq_ignore_ascii_case(b"TON") {
        Some(BlockType::TON)
    } else if word.eq_ignore_ascii_case(b"TOF") {
        Some(BlockType::TOF)
    } else {
        None
    }
}

#[tactic(auto, unfolding(crate::specs::Chars::is_value_word))]
fn is_value_word(word: &[u8]) -> bool
    ensures { result ≡ is_value_word word.now }
{
    word.eq_ignore_ascii_case(b"BOOL")
        || word.eq_ignore_ascii_case(b"INT")
        || word.eq_ignore_ascii_case(b"TIME")
        || word.eq_ignore_ascii_case(b"TRUE")
        || word.eq_ignore_ascii_case(b"FALSE")
}

#[tactic(auto, unfolding(crate::specs::Chars::is_program_word))]
fn is_program_word(word: &[u8]) -> bool
    ensures { result ≡ is_program_word word.now }
{
    word.eq_ignore_ascii_case(b"PROGRAM")
        || word.eq_ignore_ascii_case(b"END_PROGRAM")
        || word.eq_ignore_ascii_case(b"VAR")
        || word.eq_ignore_ascii_case(b"VAR_INPUT")
        || word.eq_ignore_ascii_case(b"VAR_OUTPUT")
        || word.eq_ignore_ascii_case(b"END_VAR")
        || word.eq_ignore_ascii_case(b"RETAIN")
}

#[tactic(auto, unfolding(crate::specs::Chars::is_resource_word))]
fn is_resource_word(word: &[u8]) -> bool
    ensures { result ≡ is_resource_word word.now }
{
    word.eq_ignore_ascii_case(b"CONFIGURATION")
        || word.eq_ignore_ascii_case(b"END_CONFIGURATION")
        || word.eq_ignore_ascii_case(b"RESOURCE")
        || word.eq_ignore_ascii_case(b"END_RESOURCE")
        || word.eq_ignore_ascii_case(b"ON")
}

#[tactic(auto, unfolding(crate::specs::Chars::is_task_word))]
fn is_task_word(word: &[u8]) -> bool
    ensures { result ≡ is_task_word word.now }
{
    word.eq_ignore_ascii_case(b"TASK")
        || word.eq_ignore_ascii_case(b"WITH")
        || word.eq_ignore_ascii_case(b"INTERVAL")
        || word.eq_ignore_ascii_case(b"PRIORITY")
}

#[tactic(auto, unfolding(crate::specs::Chars::is_reserved))]
fn is_reserved(word: &[u8]) -> bool
    ensures { result ≡ is_reserved word.now }
{
    block_type(word).is_some()
        || is_value_word(word)
        || is_program_word(word)
        || is_resource_word(word)
        || is_task_word(word)
}

/// Whether a word is a name without a dot: an identifier (see [`is_identifier`]) that isn't reserved, whatever the case
/// of its letters. Reserved are the words of programs, configurations, kinds and values, and the block types.
#[tactic(auto, unfolding(crate::specs::Chars::is_plain_name))]
pub fn is_plain_name(word: &[u8]) -> bool
    ensures { result ≡ is_plain_name word.now }
{
    is_identifier(word) && !is_reserved(word)
}

fn dot_in(word: &[u8]) -> Option<usize>
    ensures value { result ≡ position (λ c. c == 46) word.now }
    ensures bound { IfSome result (λ i. i < length word.now) }
{
    word.iter().position(|c| *c == b'.')
}

/// Whether a word is a name: a plain name (see [`is_plain_name`]), or two joined by a dot.
#[tactic(auto, unfolding(crate::specs::Chars::is_name))]
pub fn is_name(word: &[u8]) -> bool
    ensures { result ≡ is_name word.now }
{
    match dot_in(word) {
        None => is_plain_name(word),
        Some(dot) => is_plain_name(&word[..dot]) && is_plain_name(&word[dot + 1..]),
    }
}

/// Whether a word is a name, a number or a duration.
#[tactic(auto, unfolding(crate::specs::Chars::is_operand))]
pub fn is_operand(word: &[u8]) -> bool
    ensures { result ≡ is_operand word.now }
{
    is_name(word) || is_number(word) || is_duration(word)
}
