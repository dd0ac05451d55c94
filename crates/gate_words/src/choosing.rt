ghost use Rattle.std.specs.Prelude.{◌≡◌, IfOk, if◌then◌else◌};
ghost use Rattle.gates.specs.Signals.{signal_value};
ghost use Rattle.gates.specs.Gates.{IsBuilt};
ghost use Rattle.gate_words.specs.Words.{word_value};
ghost use Rattle.gate_words.specs.Steps.Bits.{bit_at};

use crate::bits::{bit, longer};
use gates::{Gates, Signal};
use std::alloc::{AllocError, Global};

/// The first word's bit at a place where the condition is TRUE, and else the second's.
fn chosen_bit(
    gates: &mut Gates,
    condition: Signal,
    first: &[Signal],
    second: &[Signal],
    place: usize,
) -> Result<Signal, AllocError>
    ensures { IfOk result (λ s. IsBuilt gates.old gates.new
        (λ v. signal_value v s ≡ (if signal_value v condition then bit_at v first.now place else bit_at v second.now place))) }
{
    let of_first = bit(gates, first, place);
    let of_second = bit(gates, second, place);
    gates.if_then_else(condition, of_first, of_second)
}

/// The first word where the condition is TRUE, and else the second.
pub fn if_then_else(
    alloc: Global,
    gates: &mut Gates,
    condition: Signal,
    first: &[Signal],
    second: &[Signal],
) -> Result<Vec<Signal>, AllocError>
    ensures { IfOk result (λ word. IsBuilt gates.old gates.new
        (λ v. word_value v word.items ≡ (if signal_value v condition then word_value v first.now else word_value v second.now))) }
{
    let mut word = Vec::new(alloc);
    let places = longer(first, second);
    for place in 0..places {
        let chosen = chosen_bit(gates, condition, first, second, place)?;
        word.push(chosen)?;
    }
    Ok(word)
}
