//! Beginnings of texts that have several parts.

ghost use Rattle.std.specs.Prelude.{◌++◌};
ghost use Rattle.std.specs.Option.{option_map};
ghost use Rattle.text_lines.specs.ReadParts.{IsBehind};

use crate::beginnings::behind;

/// What stands behind two parts.
fn behind_two<'a>(text: &'a [u8], first: &[u8], second: &[u8]) -> Option<&'a [u8]>
    ensures { IsBehind text.now (first.now ++ second.now) (option_map (λ rest. rest.now) result) }
{
    match behind(text, first) {
        Some(rest) => behind(rest, second),
        None => None,
    }
}

/// What stands behind three parts.
pub(crate) fn behind_three<'a>(
    text: &'a [u8],
    first: &[u8],
    second: &[u8],
    third: &[u8],
) -> Option<&'a [u8]>
    ensures { IsBehind text.now (first.now ++ second.now ++ third.now) (option_map (λ rest. rest.now) result) }
{
    match behind_two(text, first, second) {
        Some(rest) => behind(rest, third),
        None => None,
    }
}
