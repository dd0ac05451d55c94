ghost use Rattle.std.specs.Prelude.{◌≡◌, ◌≤◌, ℕ, Bool, length};
ghost use Rattle.gates.specs.Signals.{signal_value};
ghost use Rattle.gates.specs.Gates.{Agrees};
ghost use Rattle.gate_words.specs.Steps.Bits.{bit_at};

use gates::{Gates, Signal};

/// The bit of a word at a place, FALSE beyond its last.
pub(crate) fn bit(gates: &Gates, word: &[Signal], place: usize) -> Signal
    ensures { (v : ℕ → Bool) → Agrees v gates.now → signal_value v result ≡ bit_at v word.now place }
{
    match word.get(place) {
        Some(signal) => *signal,
        None => gates.constant(false),
    }
}

/// How many bits the longer of two words has.
pub(crate) fn longer(left: &[Signal], right: &[Signal]) -> usize
    ensures of_left { length left.now ≤ result }
    ensures of_right { length right.now ≤ result }
{
    left.len().max(right.len())
}
