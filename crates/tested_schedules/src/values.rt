//! The values that are expected.

ghost use Rattle.std.specs.Prelude.{◌≡◌, ◌-ℤ◌, pos};
ghost use Rattle.evaluation.specs.InputTexts.{bit_value, value_above, value_below, word_value};
ghost use Rattle.tested_schedules.specs.Expectations.{value_in};

use declared_names::Kind;
use std_blocks::Value;
use words::{duration_up_to, number_up_to};

/// The number behind a `-`, down to -32768.
#[tactic(auto, unfolding(words::specs::Numbers::number_up_to))]
fn below_zero(digits: &[u8]) -> Option<i16>
    ensures { result ≡ value_below digits.now }
{
    let number = number_up_to(digits, 32_768)?;
    Some((0 - number as i32) as i16)
}

/// A number without a sign, up to 32767.
#[tactic(auto, unfolding(words::specs::Numbers::number_up_to))]
fn from_zero(digits: &[u8]) -> Option<i16>
    ensures { result ≡ value_above digits.now }
{
    let number = number_up_to(digits, 32_767)?;
    Some(number as i16)
}

/// A number from -32768 to 32767.
#[tactic(auto, unfolding(evaluation::specs::InputTexts::word_value))]
fn int_of(word: &[u8]) -> Option<i16>
    ensures { result ≡ word_value word.now }
{
    match word {
        [b'-', digits @ ..] => below_zero(digits),
        _ => from_zero(word),
    }
}

/// The value of a kind that a word is.
#[tactic(auto, unfolding(evaluation::specs::InputTexts::bit_value))]
pub fn value_in(kind: Kind, word: &[u8]) -> Option<Value>
    ensures { result ≡ value_in kind word.now }
{
    match kind {
        Kind::Bool => match number_up_to(word, 1) {
            Some(number) => Some(Value::Bool(number == 1)),
            None => None,
        },
        Kind::Int => match int_of(word) {
            Some(number) => Some(Value::Int(number)),
            None => None,
        },
        Kind::Time => match duration_up_to(word, 4_294_967_295) {
            Some(milliseconds) => Some(Value::Time(milliseconds as u32)),
            None => None,
        },
    }
}
