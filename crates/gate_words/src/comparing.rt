ghost use Rattle.std.specs.Prelude.{◌≡◌, ◌==◌, ◌&&◌, leb, not, IfOk, if◌then◌else◌};
ghost use Rattle.gates.specs.Signals.{signal_value};
ghost use Rattle.gates.specs.Gates.{IsBuilt};
ghost use Rattle.gate_words.specs.Words.{word_value};
ghost use Rattle.gate_words.specs.Steps.Bits.{bit_at};

use crate::bits::{bit, longer};
use gates::{Gates, Signal};
use std::alloc::AllocError;

/// A signal that is TRUE where the bits at a place are the same.
fn is_same_bit(
    gates: &mut Gates,
    left: &[Signal],
    right: &[Signal],
    place: usize,
) -> Result<Signal, AllocError>
    ensures { IfOk result (λ s. IsBuilt gates.old gates.new
        (λ v. signal_value v s ≡ (if bit_at v left.now place then bit_at v right.now place else not (bit_at v right.now place)))) }
{
    let of_left = bit(gates, left, place);
    let of_right = bit(gates, right, place);
    gates.equal(of_left, of_right)
}

/// A signal that is TRUE where both words are the same number.
pub fn equal(gates: &mut Gates, left: &[Signal], right: &[Signal]) -> Result<Signal, AllocError>
    ensures { IfOk result (λ s. IsBuilt gates.old gates.new
        (λ v. signal_value v s ≡ (word_value v left.now == word_value v right.now))) }
{
    let mut so_far = gates.constant(true);
    let places = longer(left, right);
    for place in 0..places {
        let same = is_same_bit(gates, left, right, place)?;
        so_far = gates.and(so_far, same)?;
    }
    Ok(so_far)
}

/// A signal that is TRUE where the first bits are at most the other's: by the bit at this place where these differ, and else
/// by those before.
fn at_most_by_bit(
    gates: &mut Gates,
    left: &[Signal],
    right: &[Signal],
    place: usize,
    before: Signal,
) -> Result<Signal, AllocError>
    ensures { IfOk result (λ s. IsBuilt gates.old gates.new
        (λ v. signal_value v s
        ≡ (if (if bit_at v left.now place then bit_at v right.now place else not (bit_at v right.now place)) then signal_value v before
        else bit_at v right.now place))) }
{
    let same = is_same_bit(gates, left, right, place)?;
    let of_right = bit(gates, right, place);
    gates.if_then_else(same, before, of_right)
}

/// A signal that is TRUE where the left word is at most the right one.
pub fn at_most(gates: &mut Gates, left: &[Signal], right: &[Signal]) -> Result<Signal, AllocError>
    ensures { IfOk result (λ s. IsBuilt gates.old gates.new
        (λ v. signal_value v s ≡ leb (word_value v left.now) (word_value v right.now))) }
{
    let mut is_at_most = gates.constant(true);
    let places = longer(left, right);
    for place in 0..places {
        is_at_most = at_most_by_bit(gates, left, right, place, is_at_most)?;
    }
    Ok(is_at_most)
}
