//! What durations look like, and how much they are.

ghost use Rattle.std.specs.Prelude.{◌≡◌, ◌≤◌, ◌*◌, List, None, IsTrue, IfSome, length, take_while, drop};
ghost use Rattle.words.specs.Durations.{Part, IsDurationOf, milliseconds};
ghost use Rattle.words.specs.Chars.{is_letter, is_digit_or_score, unit_rank, without_score, part_rest, part_unit, part_more, is_part, is_parts, has_parts, is_duration_behind, is_duration};
ghost use Rattle.words.specs.Numbers.{unit_length, part_value, parts_value, duration_value, limited, duration_up_to};

use crate::numbers::{digits_up_to, is_number};

fn is_digit_or_score(c: u8) -> bool
    ensures { result ≡ is_digit_or_score c }
{
    c.is_ascii_digit() || c == b'_'
}

fn is_letter(c: u8) -> bool
    ensures { result ≡ is_letter c }
{
    c.is_ascii_alphabetic()
}

fn digit_count(word: &[u8]) -> usize
    ensures { result ≡ length (take_while is_digit_or_score word.now) }
{
    word.iter().take_while(|c| is_digit_or_score(**c)).count()
}

fn letter_count(word: &[u8]) -> usize
    ensures { result ≡ length (take_while is_letter word.now) }
{
    word.iter().take_while(|c| is_letter(**c)).count()
}

/// The digits and underscores at the front of a text.
fn digits(word: &[u8]) -> &[u8]
    ensures { result.now ≡ take_while is_digit_or_score word.now }
{
    &word[..digit_count(word)]
}

/// The letters at the front of a text.
fn letters(word: &[u8]) -> &[u8]
    ensures { result.now ≡ take_while is_letter word.now }
{
    &word[..letter_count(word)]
}

fn unit_rank(unit: &[u8]) -> usize
    ensures { result ≡ unit_rank unit.now }
{
    if unit.eq_ignore_ascii_case(b"d") {
        1
    } else if unit.eq_ignore_ascii_case(b"h") {
        2
    } else if unit.eq_ignore_ascii_case(b"m") {
        3
    } else if unit.eq_ignore_ascii_case(b"s") {
        4
    } else if unit.eq_ignore_ascii_case(b"ms") {
        5
    } else {
        0
    }
}

/// How many milliseconds a unit is.
fn unit_length(unit: &[u8]) -> u64
    ensures value { result ≡ unit_length (unit_rank unit.now) }
    ensures positive { 1 ≤ result }
{
    match unit_rank(unit) {
        1 => 86_400_000,
        2 => 3_600_000,
        3 => 60_000,
        4 => 1_000,
        _ => 1,
    }
}

fn without_score(word: &[u8]) -> &[u8]
    ensures { result.now ≡ without_score word.now }
{
    match word {
        [b'_', more @ ..] => more,
        _ => word,
    }
}

fn part_rest(word: &[u8]) -> &[u8]
    ensures { result.now ≡ part_rest word.now }
{
    &word[digits(word).len().min(word.len())..]
}

fn part_unit(word: &[u8]) -> &[u8]
    ensures { result.now ≡ part_unit word.now }
{
    letters(part_rest(word))
}

fn part_more(word: &[u8]) -> &[u8]
    ensures { result.now ≡ part_more word.now }
{
    let rest = part_rest(word);
    &rest[part_unit(word).len().min(rest.len())..]
}

/// A number and a unit below the one before.
#[tactic(auto, unfolding(crate::specs::Chars::is_part))]
fn is_part(above: usize, word: &[u8]) -> bool
    ensures { result ≡ is_part above word.now }
{
    is_number(digits(word)) && above < unit_rank(part_unit(word))
}

/// At most so many parts of a duration, each with a lower unit than the one before.
fn is_parts(most: usize, above: usize, word: &[u8]) -> bool
    ensures { result ≡ is_parts most above word.now }
{
    if most == 0 || !is_part(above, word) {
        return false;
    }
    let more = part_more(word);
    if more.is_empty() {
        return true;
    }
    is_parts(most - 1, unit_rank(part_unit(word)), without_score(more))
}

#[tactic(auto, unfolding(crate::specs::Chars::has_parts))]
fn has_parts(most: usize, word: &[u8]) -> bool
    ensures { result ≡ has_parts most word.now }
{
    is_parts(most, 0, word)
}

/// What follows the first characters of a text.
fn behind(word: &[u8], len: usize) -> &[u8]
    ensures { result.now ≡ drop len word.now }
{
    &word[len.min(word.len())..]
}

#[tactic(auto, unfolding(crate::specs::Chars::is_duration_behind))]
fn is_duration_behind(front: &[u8], len: usize, word: &[u8]) -> bool
    ensures { result ≡ is_duration_behind front.now len word.now }
{
    if !(len <= word.len()) {
        return false;
    }
    if !word[..len].eq_ignore_ascii_case(front) {
        return false;
    }
    has_parts(word.len(), behind(word, len))
}

/// Whether a word is a duration: `T#` or `TIME#`, and then parts such as `1d`, `2h`, `3m`, `4s` or `500ms`. Each part is
/// a number (see [`is_number`]) and a unit, the units fall, and one underscore may stand between two parts. The case of
/// letters doesn't count.
#[tactic(auto, unfolding(crate::specs::Chars::is_duration), using(crate::proofs::DurationWords::duration_spelled))]
pub fn is_duration(word: &[u8]) -> bool
    ensures value { result ≡ is_duration word.now }
    ensures spelled { IsTrue result → (ps : List Part) × IsDurationOf word.now ps }
    ensures every { (ps : List Part) → IsDurationOf word.now ps → IsTrue result }
{
    is_duration_behind(b"T#", 2, word) || is_duration_behind(b"TIME#", 5, word)
}

/// The milliseconds of the first part of a duration, unless they are above the limit.
fn part_up_to(word: &[u8], most: u64) -> Option<u64>
    ensures { result ≡ limited most (part_value word.now) }
{
    let length = unit_length(part_unit(word));
    let value = digits_up_to(digits(word), most)?.checked_mul(length)?;
    if value <= most { Some(value) } else { None }
}

/// The milliseconds of at most so many parts of a duration, unless they are above the limit.
fn parts_up_to(parts: usize, word: &[u8], most: u64) -> Option<u64>
    ensures { result ≡ limited most (parts_value parts word.now) }
{
    if parts == 0 {
        return Some(0);
    }
    let here = part_up_to(word, most)?;
    let more = part_more(word);
    if more.is_empty() {
        return Some(here);
    }
    let rest = parts_up_to(parts - 1, without_score(more), most - here)?;
    Some(here + rest)
}

/// The milliseconds behind `T#` or `TIME#`, unless they are above the limit.
#[tactic(auto, unfolding(crate::specs::Numbers::duration_value))]
fn milliseconds_up_to(word: &[u8], most: u64) -> Option<u64>
    ensures { result ≡ limited most (duration_value word.now) }
{
    if is_duration_behind(b"T#", 2, word) {
        parts_up_to(word.len(), behind(word, 2), most)
    } else {
        parts_up_to(word.len(), behind(word, 5), most)
    }
}

/// How many milliseconds a duration is (see [`is_duration`]). `None`: the word is no duration, or it is above `most`.
#[tactic(auto, unfolding(crate::specs::Numbers::duration_up_to), using(crate::proofs::DurationWords::duration_none))]
pub fn duration_up_to(word: &[u8], most: u64) -> Option<u64>
    ensures value { result ≡ duration_up_to most word.now }
    ensures within { IfSome result (λ n. n ≤ most) }
    ensures sum { (ps : List Part) → IsDurationOf word.now ps → result ≡ limited most (milliseconds ps) }
    ensures none { ((ps : List Part) → IsDurationOf word.now ps → ⊥) → result ≡ None }
{
    if is_duration(word) {
        milliseconds_up_to(word, most)
    } else {
        None
    }
}
