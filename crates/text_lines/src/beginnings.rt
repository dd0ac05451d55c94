//! Beginnings of texts.

ghost use Rattle.std.specs.Prelude.{◌≡◌, ◌↔◌, IsTrue};
ghost use Rattle.std.specs.Option.{option_map};
ghost use Rattle.text_lines.specs.ReadParts.{IsBehind};

/// Whether both have the same bytes in the same order.
pub fn are_same(bytes: &[u8], others: &[u8]) -> bool
    ensures { IsTrue result ↔ (bytes.now ≡ others.now) }
{
    bytes == others
}

/// What stands behind a text's beginning. `None`: it begins otherwise.
#[tactic(auto, using(crate::proofs::BegunTexts::behind_short, crate::proofs::BegunTexts::behind_start, crate::proofs::BegunTexts::behind_other))]
pub fn behind<'a>(text: &'a [u8], beginning: &[u8]) -> Option<&'a [u8]>
    ensures { IsBehind text.now beginning.now (option_map (λ rest. rest.now) result) }
{
    if text.len() < beginning.len() {
        return None;
    }
    let (start, rest) = text.split_at(beginning.len());
    if are_same(start, beginning) {
        Some(rest)
    } else {
        None
    }
}
