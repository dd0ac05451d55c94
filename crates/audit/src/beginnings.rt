//! Beginnings of lines, and the numbers and values with which a text begins.

ghost use Rattle.std.specs.Prelude.{◌≡◌, ◌++◌, IfSome, List, ℕ, codes};
ghost use Rattle.std.specs.Option.{option_map};
ghost use Rattle.std.specs.Fmt.{decimal};
ghost use Rattle.text_lines.specs.LineParts.{resource_text, value_text};
ghost use Rattle.text_lines.specs.ReadParts.{IsBehind};
ghost use Rattle.text_lines.specs.MessageLines.{IsSmall};
ghost use Rattle.text_lines.specs.Steps.Reading.{stop_in, HasNone, StopsAt, IsRead, IsOfKind};

use declared_names::Kind;
use plant::Plant;
use std_blocks::Value;
use text_lines::{behind, number_of, resource_name, value_of};

/// What stands behind a resource's name and a blank.
#[tactic(auto, using(text_lines::proofs::Parts::behind_both))]
fn behind_name<'a>(text: &'a [u8], plant: &Plant, resource: usize) -> Option<&'a [u8]>
    ensures { IsBehind text.now (resource_text plant.now resource ++ codes " ") (option_map (λ rest. rest.now) result) }
{
    match behind(text, resource_name(plant, resource).as_bytes()) {
        Some(rest) => behind(rest, b" "),
        None => None,
    }
}

/// What stands behind a first word, a resource's name and a blank.
pub(crate) fn behind_resource<'a>(
    line: &'a [u8],
    first: &[u8],
    plant: &Plant,
    resource: usize,
) -> Option<&'a [u8]>
    ensures { IsBehind line.now (first.now ++ resource_text plant.now resource ++ codes " ") (option_map (λ rest. rest.now) result) }
{
    match behind(line, first) {
        Some(rest) => behind_name(rest, plant, resource),
        None => None,
    }
}

/// Where the first blank stands.
fn blank_in(text: &[u8]) -> Option<usize>
    ensures { result ≡ stop_in text.now 32 }
{
    text.iter().position(|c| *c == b' ')
}

/// What stands before the first blank, and the rest from it on; all, and nothing, where there is none.
#[tactic(auto, using(text_lines::proofs::WordsRead::stopped, text_lines::proofs::WordsRead::unstopped))]
fn split_before_blank(text: &[u8]) -> (&[u8], &[u8])
    ensures { (word more : List ℕ) → HasNone 32 word → StopsAt 32 more → text.now ≡ word ++ more
        → (result.0.now ≡ word) × (result.1.now ≡ more) }
{
    match blank_in(text) {
        Some(end) => text.split_at(end),
        None => (text, b""),
    }
}

/// The number up to a blank, or up to the end, and the rest from there on.
pub(crate) fn number_at(text: &[u8]) -> Option<(u32, &[u8])>
    ensures { IsRead decimal IsSmall 32 text.now (option_map (λ r. (r.0, r.1.now)) result) }
{
    let (digits, rest) = split_before_blank(text);
    match number_of(digits) {
        Some(number) => Some((number, rest)),
        None => None,
    }
}

/// The value of a kind up to a blank, or up to the end, and the rest from there on.
pub(crate) fn value_at(text: &[u8], kind: Kind) -> Option<(Value, &[u8])>
    ensures { IsRead value_text (IsOfKind kind) 32 text.now (option_map (λ r. (r.0, r.1.now)) result) }
{
    let (word, rest) = split_before_blank(text);
    match value_of(kind, word) {
        Some(value) => Some((value, rest)),
        None => None,
    }
}
