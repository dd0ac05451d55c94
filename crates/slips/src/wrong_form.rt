//! Durations, numbers, addresses and names that are written as elsewhere.

ghost use Rattle.std.specs.Prelude.{IfSome, IsFalse};
ghost use Rattle.words.specs.Chars.{is_operand};

use crate::block_names::push_word;
use crate::rows::is_among;
use std::alloc::{AllocError, Global};
use words::{is_number, is_operand};

/// In which way a word is none.
#[derive(Clone, Copy, Debug, PartialEq, Eq)]
pub enum WrongForm {
    Duration,
    Number,
    Address,
    Quotes,
    Dash,
    Digit,
    Hash,
}

impl WrongForm {
    /// How it is written.
    fn text(self) -> &'static str {
        match self {
            WrongForm::Duration => {
                "a duration is T# and whole numbers, each with its unit of d, h, m, s or ms, the units falling, as T#5s or T#2s500ms"
            }
            WrongForm::Number => {
                "a number is whole and decimal, of digits alone, with single underscores between them at most"
            }
            WrongForm::Address => {
                "an address is %IX and the number of a bit, or %IW and that of a word, as %IX0, and stands in a plant alone; a drawing has names, which a plant binds to addresses"
            }
            WrongForm::Quotes => "a name stands without quotes",
            WrongForm::Dash => {
                "a name has letters, digits and single underscores, as K_1; a - is a line"
            }
            WrongForm::Digit => "a name begins with a letter or an underscore",
            WrongForm::Hash => {
                "a name has letters, digits and single underscores, and # stands in durations alone, as T#5s"
            }
        }
    }
}

/// The digits and underscores at the front of a word.
fn digits(word: &[u8]) -> usize {
    word.iter()
        .take_while(|sign| sign.is_ascii_digit() || **sign == b'_')
        .count()
}

fn is_unit(letters: &[u8]) -> bool {
    letters.eq_ignore_ascii_case(b"d")
        || letters.eq_ignore_ascii_case(b"h")
        || letters.eq_ignore_ascii_case(b"m")
        || letters.eq_ignore_ascii_case(b"s")
        || letters.eq_ignore_ascii_case(b"ms")
}

/// Whether a word begins with a digit and ends with a unit, as 5s, 500ms, 2.5s or 1m30s.
fn is_bare_duration(word: &[u8]) -> bool {
    let letters = word
        .iter()
        .rev()
        .take_while(|sign| sign.is_ascii_alphabetic())
        .count();
    let unit = word
        .get(word.len().saturating_sub(letters)..)
        .unwrap_or(b"");
    0 < digits(word) && is_unit(unit) && !word.contains(&b'#')
}

/// Whether a word begins as a duration does.
fn is_begun_duration(word: &[u8]) -> bool {
    let front = word.split(|sign| *sign == b'#').next().unwrap_or(word);
    front.len() < word.len()
        && (front.eq_ignore_ascii_case(b"T")
            || front.eq_ignore_ascii_case(b"TIME")
            || front.eq_ignore_ascii_case(b"S5T")
            || front.eq_ignore_ascii_case(b"LTIME")
            || front.eq_ignore_ascii_case(b"LT"))
}

/// Whether a word has a dash between two letters or digits, and no two dashes side by side.
fn is_dashed(word: &[u8]) -> bool {
    word.contains(&b'-')
        && word
            .split(|sign| *sign == b'-')
            .all(|part| !part.is_empty())
}

/// Whether an address is one: `%IX` or `%IW` and a number.
fn is_address(word: &[u8]) -> bool {
    match word {
        [b'%', i, x, number @ ..] => {
            i.eq_ignore_ascii_case(&b'I')
                && (x.eq_ignore_ascii_case(&b'X') || x.eq_ignore_ascii_case(&b'W'))
                && is_number(number)
        }
        _ => false,
    }
}

/// In which way a word that begins with a digit or has a # is written wrong. `None`: in none of these.
fn wrong_number(word: &[u8]) -> Option<WrongForm> {
    if is_begun_duration(word) || is_bare_duration(word) {
        Some(WrongForm::Duration)
    } else if 0 < digits(word) && (word.contains(&b'#') || word.contains(&b'.')) {
        Some(WrongForm::Number)
    } else if word.contains(&b'#') {
        Some(WrongForm::Hash)
    } else if word.first().is_some_and(|sign| sign.is_ascii_digit()) {
        Some(WrongForm::Digit)
    } else {
        None
    }
}

/// In which way a word that is no operand is written wrong. `None`: in none of these.
fn wrong_word(word: &[u8]) -> Option<WrongForm> {
    match word {
        [b'"' | b'\'', ..] => Some(WrongForm::Quotes),
        [b'%', ..] => Some(WrongForm::Address),
        _ if is_dashed(word) => Some(WrongForm::Dash),
        _ => wrong_number(word),
    }
}

/// In which way a word is written wrong. `None`: in none of these, as each name, number and duration.
fn wrong_form(word: &[u8], is_address_allowed: bool) -> Option<WrongForm>
    ensures { IfSome result (λ form. IsFalse (is_operand word.now)) }
{
    if is_operand(word) {
        return None;
    }
    if is_address_allowed && is_address(word) {
        return None;
    }
    wrong_word(word)
}

/// Whether a sign stands between words.
fn is_between(sign: u8) -> bool {
    is_among(sign, b" \t\r|+(),;:=")
}

/// A word without the dashes at both ends.
fn without_dashes(word: &[u8]) -> &[u8] {
    let first = word.iter().take_while(|sign| **sign == b'-').count();
    let behind = word.iter().rev().take_while(|sign| **sign == b'-').count();
    word.get(first..word.len().saturating_sub(behind))
        .unwrap_or(b"")
}

/// What stands in a row in front of a comment.
fn before_comment(row: &[u8]) -> &[u8] {
    let mut end = row.len();
    let pairs = row.iter().zip(row.iter().skip(1));
    for (at, (sign, next)) in pairs.enumerate() {
        if *sign == b'(' && *next == b'*' {
            end = end.min(at);
        }
    }
    row.get(..end).unwrap_or(row)
}

/// A word that is written wrong, and in which way.
#[derive(Clone, Copy)]
struct Wrong<'a> {
    word: &'a [u8],
    form: WrongForm,
}

/// The word from one column up to another one, where it is written wrong.
fn wrong_from<'a>(
    row: &'a [u8],
    first: usize,
    end: usize,
    is_address_allowed: bool,
) -> Option<Wrong<'a>> {
    let word = without_dashes(row.get(first..end).unwrap_or(b""));
    let form = wrong_form(word, is_address_allowed)?;
    Some(Wrong { word, form })
}

/// The first word of a plant's line that is written wrong.
fn wrong_on_a_line<'a>(row: &'a [u8], is_address_allowed: bool) -> Option<Wrong<'a>> {
    let row = before_comment(row);
    let mut first = 0;
    for (at, sign) in row.iter().enumerate() {
        if is_between(*sign) {
            if let Some(wrong) = wrong_from(row, first, at, is_address_allowed) {
                return Some(wrong);
            }
            first = at.saturating_add(1);
        }
    }
    wrong_from(row, first, row.len(), is_address_allowed)
}

/// The word of a drawing's row at a column, where it is written wrong.
fn wrong_in<'a>(row: &'a [u8], column: usize) -> Option<Wrong<'a>> {
    let before = row.get(..column).unwrap_or(b"");
    let behind = row.get(column..).unwrap_or(b"");
    let left = before
        .iter()
        .rev()
        .take_while(|sign| !is_between(**sign))
        .count();
    let right = behind.iter().take_while(|sign| !is_between(**sign)).count();
    let first = column.saturating_sub(left);
    wrong_from(row, first, column.saturating_add(right), false)
}

/// Tells how a word is written.
fn told_of_wrong(alloc: Global, wrong: Option<Wrong<'_>>) -> Result<Option<String>, AllocError> {
    let Some(Wrong { word, form }) = wrong else {
        return Ok(None);
    };
    let mut text = String::new(alloc);
    push_word(&mut text, word)?;
    text.push_str(": ")?;
    text.push_str(form.text())?;
    text.push_str(".\n")?;
    Ok(Some(text))
}

/// What is told of the word of a drawing's row at a column, counted from 0, where it is written as elsewhere.
pub fn told_of_form(alloc: Global, row: &str, column: usize) -> Result<Option<String>, AllocError> {
    told_of_wrong(alloc, wrong_in(row.as_bytes(), column))
}

/// What is told of the first word of a plant's line that is written as elsewhere. In a body an address is one.
pub fn told_of_forms(
    alloc: Global,
    row: &str,
    is_address_allowed: bool,
) -> Result<Option<String>, AllocError> {
    told_of_wrong(alloc, wrong_on_a_line(row.as_bytes(), is_address_allowed))
}
