ghost use Rattle.std.specs.Prelude.{◌≡◌, ◌<◌, ◌^◌, ℕ, IfOk, MatchOption, string_bytes};
ghost use Rattle.keepers.specs.KeptNumbers.{number_text};

use std::alloc::{AllocError, Global};
use text_lines::{are_same, number_of};

/// One more byte than the longest number has in the form in which it is kept.
pub(crate) const MOST_BYTES: usize = 12;

/// A number in the form in which it is kept.
pub(crate) fn number_text(alloc: Global, number: u32) -> Result<String, AllocError>
    ensures { IfOk result (λ text. string_bytes text ≡ number_text number) }
{
    format!(in alloc; "{number}\n")
}

/// The number of which these bytes are the kept form.
pub(crate) fn number_in(alloc: Global, bytes: &[u8]) -> Result<Option<u32>, AllocError>
    ensures { IfOk result (λ found. MatchOption found
        ((n : ℕ) → n < 2 ^ 32 → bytes.now ≡ number_text n → ⊥) (λ n. bytes.now ≡ number_text n)) }
{
    let [digits @ .., b'\n'] = bytes else {
        return Ok(None);
    };
    let Some(number) = number_of(digits) else {
        return Ok(None);
    };
    let text = number_text(alloc, number)?;
    if are_same(text.as_bytes(), bytes) {
        Ok(Some(number))
    } else {
        Ok(None)
    }
}
