ghost use Rattle.std.specs.Prelude.{◌≡◌, pos, Some, IsTrue};
ghost use Rattle.words.specs.Chars.{is_number, is_duration};
ghost use Rattle.words.specs.Numbers.{number_value, duration_value};
ghost use Rattle.name_faults.specs.Literals.{literal_value};
ghost use Rattle.name_faults.specs.Steps.BoxFindings.{literal_of};
ghost use Rattle.name_faults.specs.Steps.Named.{IsInRange};

use declared_names::Kind;
use std_blocks::Value;
use words::{Text, is_duration, is_number, number_up_to, small_duration};

/// What an operand is by itself.
#[derive(Clone, Copy)]
pub enum Literal {
    /// A name.
    Absent,
    /// A number or a duration.
    Value(Value),
    /// A number or a duration out of its range.
    TooLarge(Kind),
}

/// A number: an INT is at most 32767.
#[tactic(auto, unfolding(words::specs::Numbers::number_up_to))]
fn int_of(word: &[u8]) -> Literal
    requires { IsTrue (is_number word.now) }
    ensures { result ≡ literal_of (Some (Value.Int (pos (number_value word.now)))) }
{
    match number_up_to(word, 32_767) {
        Some(number) => Literal::Value(Value::Int(number as i16)),
        None => Literal::TooLarge(Kind::Int),
    }
}

/// A duration: it is at most 2147483647 ms.
#[tactic(auto, unfolding(words::specs::Numbers::duration_up_to))]
fn time_of(word: &[u8]) -> Literal
    requires { IsTrue (is_duration word.now) }
    ensures { result ≡ literal_of (Some (Value.Time (duration_value word.now))) }
{
    match small_duration(word) {
        Some(milliseconds) => Literal::Value(Value::Time(milliseconds)),
        None => Literal::TooLarge(Kind::Time),
    }
}

/// What an operand is by itself: a number, a duration, or a name.
#[tactic(auto, unfolding(crate::specs::Literals::literal_value))]
pub fn read_literal(text: &Text) -> Literal
    ensures { result ≡ literal_of (literal_value text.now) }
{
    let word = text.as_bytes();
    if is_number(word) {
        return int_of(word);
    }
    if is_duration(word) {
        return time_of(word);
    }
    Literal::Absent
}

/// The value of a number or a duration that is in range.
pub fn literal_value(text: &Text) -> Option<Value>
    ensures { IsInRange text.now → result ≡ literal_value text.now }
{
    match read_literal(text) {
        Literal::Value(value) => Some(value),
        _ => None,
    }
}
