ghost use Rattle.std.specs.Prelude.{◌≡◌, ◌+◌, ◌-◌, ◌^◌, ℕ, Bool, length, IfOk};
ghost use Rattle.gates.specs.Gates.{Agrees, IsBuilt};
ghost use Rattle.gate_words.specs.Words.{word_value};

use crate::adding::bounded_sum;
use crate::numbers::resized;
use gates::{Gates, Signal};
use std::alloc::{AllocError, Global};

/// What is missing of the greatest number of so many bits: each bit negated.
fn complement(alloc: Global, word: &[Signal]) -> Result<Vec<Signal>, AllocError>
    ensures { IfOk result (λ new. (v : ℕ → Bool) → word_value v new.items + word_value v word.now + 1 ≡ 2 ^ length word.now) }
{
    let mut new = Vec::new(alloc);
    for signal in word {
        let other = signal.negated();
        new.push(other)?;
    }
    Ok(new)
}

/// The greatest number of so many bits.
fn greatest(alloc: Global, gates: &Gates, bits: usize) -> Result<Vec<Signal>, AllocError>
    ensures { IfOk result (λ word. (v : ℕ → Bool) → Agrees v gates.now → word_value v word.items + 1 ≡ 2 ^ bits) }
{
    let none = resized(alloc, gates, &[], bits)?;
    let off = none.as_slice();
    let word = complement(alloc, off)?;
    Ok(word)
}

/// What is left of the left word without the right one; 0 where that is more.
pub fn difference(
    alloc: Global,
    gates: &mut Gates,
    left: &[Signal],
    right: &[Signal],
) -> Result<Vec<Signal>, AllocError>
    ensures { IfOk result (λ word. IsBuilt gates.old gates.new
        (λ v. word_value v word.items ≡ word_value v left.now - word_value v right.now)) }
{
    let missing = complement(alloc, left)?;
    let most = greatest(alloc, gates, left.len())?;
    let missing_bits = missing.as_slice();
    let most_bits = most.as_slice();
    let more = bounded_sum(alloc, gates, missing_bits, right, most_bits)?;
    let more_bits = more.as_slice();
    let kept = resized(alloc, gates, more_bits, left.len())?;
    let kept_bits = kept.as_slice();
    let word = complement(alloc, kept_bits)?;
    Ok(word)
}
