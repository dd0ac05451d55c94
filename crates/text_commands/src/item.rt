ghost use Rattle.std.specs.Prelude.{◌≡◌, ◌*◌, ◌<◌, ◌≤◌, ℕ, IfSome, MatchOption, length, slice_get};
ghost use Rattle.std.specs.List.{before_first};
ghost use Rattle.text_commands.specs.Series.{ItemValue, IsCount, IsItem, IsTimes, is_star, repeated};
ghost use Rattle.text_commands.specs.Steps.Series.{IsOften};

use crate::once::{Once, once_of};
use declared_names::Kind;
use std::marker::Model;
use std_blocks::Value;
use words::number_up_to;

/// An item V or V*COUNT of a word NAME=VALUES: values, and how many times they come.
#[derive(Debug, Drop)]
pub struct Item<'a> {
    once: Once<'a>,
    times: usize,
}

impl<'a> Model for Item<'a> {
    ghost use Rattle.text_commands.specs.Series.{ItemValue};
    ghost use Rattle.text_commands.specs.Steps.Series.{item_value, IsBounded, once_values};

    ghost Value = { ItemValue };

    ghost view = { λ i. item_value (once_values i.once) i.times };

    ghost invariant = { λ i. IsBounded (item_value (once_values i.once) i.times) };
}

impl<'a> Item<'a> {
    /// How many values it gives in all: from 1 to 1,000,000,000.
    pub fn len(&self) -> usize
        ensures long { result ≡ length (repeated self.now.times self.now.once) }
        ensures some { 0 < result }
        ensures limited { result ≤ 1000000000 }
    {
        self.times * self.once.len()
    }

    /// The value at a place, counted from 0.
    pub fn value(&self, place: usize) -> Option<Value>
        requires { place < length (repeated self.now.times self.now.once) }
        ensures { result ≡ slice_get (repeated self.now.times self.now.once) place }
    {
        self.once.value(place % self.once.len())
    }
}

/// How many values a word gives at most.
pub(crate) const MOST_VALUES: u64 = 1_000_000;

/// How many times an item's values come: decimal digits, from 1 to 1,000,000.
pub(crate) fn count_of(digits: &[u8]) -> Option<usize>
    ensures read { MatchOption result ((times : ℕ) → IsCount digits.now times → ⊥) (IsCount digits.now) }
    ensures limited { IfSome result (λ times. times ≤ 1000000) }
{
    if !digits.iter().all(u8::is_ascii_digit) {
        return None;
    }
    let count = number_up_to(digits, MOST_VALUES)?;
    if count == 0 {
        return None;
    }
    Some(count as usize)
}

/// V of an item V or V*COUNT, and how many times its values come.
fn parts_of(text: &str) -> Option<(&str, usize)>
    ensures each { IfSome result (λ parts. parts.0.now ≡ before_first is_star text.now) }
    ensures times { MatchOption result ((times : ℕ) → IsTimes text.now times → ⊥) (λ parts. IsTimes text.now parts.1) }
    ensures limited { IfSome result (λ parts. IsOften parts.1) }
{
    match text.split_once('*') {
        Some((each, count)) => Some((each, count_of(count.as_bytes())?)),
        None => Some((text, 1)),
    }
}

/// Reads an item V or V*COUNT of a variable of a kind.
pub fn read_item(kind: Kind, text: &str) -> Option<Item<'_>>
    ensures { MatchOption result ((item : ItemValue) → IsItem kind text.now item → ⊥) (IsItem kind text.now) }
{
    let (each, times) = parts_of(text)?;
    let once = once_of(kind, each)?;
    Some(Item { once, times })
}
