//! Values that are read.

ghost use Rattle.std.specs.Prelude.{◌≡◌, ◌↔◌, ◌++◌, ◌∷◌, [], ℕ, ℤ, FitsSigned, List, IsTrue, IfSome, Some};
ghost use Rattle.std.specs.Int.{w16};
ghost use Rattle.std.specs.Fmt.{signed_decimal};
ghost use Rattle.std_blocks.specs.declared.value.Value.{Value as LineValue};
ghost use Rattle.declared_names.specs.Kinds.{kind_of};
ghost use Rattle.text_lines.specs.LineParts.{value_text};
ghost use Rattle.text_lines.specs.ReadParts.{IsInRange};

use crate::beginnings::are_same;
use crate::numbers::number_of;
use declared_names::Kind;
use std_blocks::Value;

/// The number that a word writes, also with a plus or zeros before it.
fn signed_number_of(word: &[u8]) -> Option<i16>
    ensures { (n : ℤ) → FitsSigned w16 n → word.now ≡ signed_decimal n → result ≡ Some n }
{
    match std::str::from_utf8(word) {
        Ok(text) => text.parse::<i16>().ok(),
        Err(_) => None,
    }
}

/// What stands between the first two and the last two bytes of a word; all, if there are no four.
#[tactic(auto, using(crate::proofs::ValueTexts::inner_text, crate::proofs::ValueTexts::inner_long))]
fn inner(word: &[u8]) -> &[u8]
    ensures { (text : List ℕ) → word.now ≡ 84 ∷ 35 ∷ (text ++ 109 ∷ 115 ∷ []) → result.now ≡ text }
{
    if word.len() < 4 {
        return word;
    }
    &word[2..word.len() - 2]
}

/// Whether a word is 1.
fn is_one(word: &[u8]) -> bool
    ensures { IsTrue result ↔ (word.now ≡ 49 ∷ []) }
{
    are_same(word, b"1")
}

/// A value of a kind: the one that the word writes, if it writes one. Other words may be read too.
#[tactic(auto, using(crate::proofs::ValueTexts::value_on, crate::proofs::ValueTexts::value_int, crate::proofs::ValueTexts::no_value_int, crate::proofs::ValueTexts::value_time, crate::proofs::ValueTexts::no_value_time))]
pub fn value_of(kind: Kind, word: &[u8]) -> Option<Value>
    ensures kind { IfSome result (λ value. kind_of value ≡ kind) }
    ensures in_range { IfSome result IsInRange }
    ensures value { (value : LineValue) → kind_of value ≡ kind → IsInRange value → word.now ≡ value_text value → result ≡ Some value }
{
    match kind {
        Kind::Bool => Some(Value::Bool(is_one(word))),
        Kind::Int => match signed_number_of(word) {
            Some(number) => Some(Value::Int(number)),
            None => None,
        },
        Kind::Time => match number_of(inner(word)) {
            Some(time) => Some(Value::Time(time)),
            None => None,
        },
    }
}
