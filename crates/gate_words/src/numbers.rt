ghost use Rattle.std.specs.Prelude.{◌≡◌, ◌^◌, ◌<◌, ℕ, Bool, length, IfOk};
ghost use Rattle.gates.specs.Gates.{Agrees};
ghost use Rattle.gate_words.specs.Words.{word_value};

use crate::bits::bit;
use gates::{Gates, Signal};
use std::alloc::{AllocError, Global};

/// The word of a number, with as many bits as that needs.
pub fn constant(alloc: Global, gates: &Gates, number: u64) -> Result<Vec<Signal>, AllocError>
    ensures { IfOk result (λ word. (v : ℕ → Bool) → Agrees v gates.now → word_value v word.items ≡ number) }
{
    let mut word = Vec::new(alloc);
    let mut rest = number;
    while rest > 0 {
        let lowest = gates.constant(rest % 2 == 1);
        word.push(lowest)?;
        rest /= 2;
    }
    Ok(word)
}

/// A word as so many bits. Its number stays, where it fits.
pub fn resized(
    alloc: Global,
    gates: &Gates,
    word: &[Signal],
    bits: usize,
) -> Result<Vec<Signal>, AllocError>
    ensures long { IfOk result (λ new. length new.items ≡ bits) }
    ensures same { IfOk result (λ new. (v : ℕ → Bool) → Agrees v gates.now → word_value v word.now < 2 ^ bits
        → word_value v new.items ≡ word_value v word.now) }
{
    let mut new = Vec::new(alloc);
    for place in 0..bits {
        let signal = bit(gates, word, place);
        new.push(signal)?;
    }
    Ok(new)
}
