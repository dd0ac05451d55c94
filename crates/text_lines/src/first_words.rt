//! Numbers and values with which a text begins.

ghost use Rattle.std.specs.Prelude.{◌≡◌, ◌++◌, ◌<◌, ℕ, List, IfSome};
ghost use Rattle.std.specs.Option.{option_map};
ghost use Rattle.std.specs.Fmt.{decimal};
ghost use Rattle.text_lines.specs.LineParts.{value_text};
ghost use Rattle.text_lines.specs.MessageLines.{IsSmall};
ghost use Rattle.text_lines.specs.Steps.Reading.{stop_in, HasNone, StopsAt, IsRead, IsOfKind};

use crate::numbers::number_of;
use crate::read_values::value_of;
use declared_names::Kind;
use std_blocks::Value;

fn stop_in(text: &[u8], stop: u8) -> Option<usize>
    ensures { result ≡ stop_in text.now stop }
{
    text.iter().position(|c| *c == stop)
}

/// What stands before the first such byte, and the rest from it on; all, and nothing, where there is none.
#[tactic(auto, using(crate::proofs::WordsRead::stopped, crate::proofs::WordsRead::unstopped))]
fn split_before(text: &[u8], stop: u8) -> (&[u8], &[u8])
    ensures { (word more : List ℕ) → HasNone stop word → StopsAt stop more → text.now ≡ word ++ more
        → (result.0.now ≡ word) × (result.1.now ≡ more) }
{
    match stop_in(text, stop) {
        Some(end) => text.split_at(end),
        None => (text, b""),
    }
}

/// The number up to a byte that is no digit, or up to the end, and the rest from there on.
pub(crate) fn number_at(text: &[u8], stop: u8) -> Option<(u32, &[u8])>
    requires { stop < 48 }
    ensures small { IfSome result (λ r. IsSmall r.0) }
    ensures read { IsRead decimal IsSmall stop text.now (option_map (λ r. (r.0, r.1.now)) result) }
{
    let (digits, rest) = split_before(text, stop);
    match number_of(digits) {
        Some(number) => Some((number, rest)),
        None => None,
    }
}

/// The value of a kind up to a blank, or up to the end, and the rest from there on.
pub(crate) fn value_at(text: &[u8], kind: Kind) -> Option<(Value, &[u8])>
    ensures kind { IfSome result (λ r. IsOfKind kind r.0) }
    ensures read { IsRead value_text (IsOfKind kind) 32 text.now (option_map (λ r. (r.0, r.1.now)) result) }
{
    let (word, rest) = split_before(text, b' ');
    match value_of(kind, word) {
        Some(value) => Some((value, rest)),
        None => None,
    }
}
