ghost use Rattle.std.specs.Prelude.{◌≡◌, ◌+◌, ◌*◌, min, IfOk, if◌then◌else◌};
ghost use Rattle.gates.specs.Signals.{signal_value};
ghost use Rattle.gates.specs.Gates.{IsBuilt};
ghost use Rattle.gate_words.specs.Words.{word_value};
ghost use Rattle.gate_words.specs.Steps.Bits.{bit_at, digit};

use crate::bits::{bit, longer};
use crate::choosing::if_then_else;
use crate::comparing::at_most;
use gates::{Gates, Signal};
use std::alloc::{AllocError, Global};

/// A bit of a sum, and what is carried on to the next one.
#[derive(Clone, Copy, Debug)]
struct Added {
    bit: Signal,
    carry: Signal,
}

/// The sum of two bits and a third one.
fn add_three(
    gates: &mut Gates,
    one: Signal,
    other: Signal,
    third: Signal,
) -> Result<Added, AllocError>
    ensures { IfOk result (λ a. IsBuilt gates.old gates.new
        (λ v. digit (signal_value v a.bit) + 2 * digit (signal_value v a.carry)
        ≡ digit (signal_value v one) + digit (signal_value v other) + digit (signal_value v third))) }
{
    let differ = gates.xor(one, other)?;
    let bit = gates.xor(differ, third)?;
    let carry = gates.if_then_else(differ, third, one)?;
    Ok(Added { bit, carry })
}

/// The sum of the bits at a place and what is carried.
fn add_bits(
    gates: &mut Gates,
    left: &[Signal],
    right: &[Signal],
    place: usize,
    carry: Signal,
) -> Result<Added, AllocError>
    ensures { IfOk result (λ a. IsBuilt gates.old gates.new
        (λ v. digit (signal_value v a.bit) + 2 * digit (signal_value v a.carry)
        ≡ digit (bit_at v left.now place) + digit (bit_at v right.now place) + digit (signal_value v carry))) }
{
    let of_left = bit(gates, left, place);
    let of_right = bit(gates, right, place);
    add_three(gates, of_left, of_right, carry)
}

/// The sum of both words.
pub fn sum(
    alloc: Global,
    gates: &mut Gates,
    left: &[Signal],
    right: &[Signal],
) -> Result<Vec<Signal>, AllocError>
    ensures { IfOk result (λ word. IsBuilt gates.old gates.new
        (λ v. word_value v word.items ≡ word_value v left.now + word_value v right.now)) }
{
    let mut word = Vec::new(alloc);
    let mut carry = gates.constant(false);
    let places = longer(left, right);
    for place in 0..places {
        let added = add_bits(gates, left, right, place, carry)?;
        word.push(added.bit)?;
        carry = added.carry;
    }
    word.push(carry)?;
    Ok(word)
}

/// The sum of both words, but at most a bound: a counter's next count, or a timer's next elapsed time.
pub fn bounded_sum(
    alloc: Global,
    gates: &mut Gates,
    left: &[Signal],
    right: &[Signal],
    bound: &[Signal],
) -> Result<Vec<Signal>, AllocError>
    ensures { IfOk result (λ word. IsBuilt gates.old gates.new
        (λ v. word_value v word.items ≡ min (word_value v left.now + word_value v right.now) (word_value v bound.now))) }
{
    let all = sum(alloc, gates, left, right)?;
    let word = all.as_slice();
    let fits = at_most(gates, word, bound)?;
    if_then_else(alloc, gates, fits, word, bound)
}
