ghost use Rattle.std.specs.Prelude.{◌≡◌, length};

use crate::choosing::if_then_else;
use crate::comparing::at_most;
use crate::numbers::{constant, resized};
use gates::{Gates, Signal};
use std::alloc::{AllocError, Global};

/// An INT by its sixteen bits in two's complement, the lowest first.
#[derive(Clone, Copy, Debug)]
pub struct IntWord {
    pub bits: [Signal; 16],
    pub ghost many: { length bits ≡ 16 },
}

impl IntWord {
    ghost use Rattle.std.specs.Prelude.{◌^◌, ◌<◌, ℕ, Bool, pos, int_le, if◌then◌else◌, IfOk};
    ghost use Rattle.gates.specs.Gates.{Agrees, IsBuilt};
    ghost use Rattle.gates.specs.Signals.{signal_value};
    ghost use Rattle.gate_words.specs.Words.{word_value};
    ghost use Rattle.gate_words.specs.Values.{int_at, IsRaised};
    ghost use Rattle.gate_words.specs.Steps.Bits.{IsFlipped};

    pub fn zero(gates: &Gates) -> IntWord
        ensures { (v : ℕ → Bool) → Agrees v gates.now → int_at v result ≡ pos 0 }
    {
        let off = gates.constant(false);
        IntWord { bits: [off; 16] }
    }

    /// The first sixteen bits of a word. Its number stays, where it fits.
    fn of(alloc: Global, gates: &Gates, word: &[Signal]) -> Result<IntWord, AllocError>
        ensures { IfOk result (λ new. (v : ℕ → Bool) → Agrees v gates.now → word_value v word.now < 2 ^ 16
            → word_value v new.bits ≡ word_value v word.now) }
    {
        let first = resized(alloc, gates, word, 16)?;
        let first = first.as_slice();
        let mut bits = [gates.constant(false); 16];
        bits.copy_from_slice(first);
        Ok(IntWord { bits })
    }

    /// This number, whatever the variables are.
    pub fn constant(alloc: Global, gates: &Gates, number: i16) -> Result<IntWord, AllocError>
        ensures { IfOk result (λ new. (v : ℕ → Bool) → Agrees v gates.now → int_at v new ≡ number) }
    {
        let unsigned = number.cast_unsigned();
        let word = constant(alloc, gates, u64::from(unsigned))?;
        let bits = word.as_slice();
        let new = IntWord::of(alloc, gates, bits)?;
        Ok(new)
    }

    /// The first where the condition is TRUE, and else the second.
    pub fn chosen(
        alloc: Global,
        gates: &mut Gates,
        condition: Signal,
        first: &IntWord,
        second: &IntWord,
    ) -> Result<IntWord, AllocError>
        ensures { IfOk result (λ new. IsBuilt gates.old gates.new
            (λ v. int_at v new ≡ (if signal_value v condition then int_at v first.now else int_at v second.now))) }
    {
        let word = if_then_else(alloc, gates, condition, &first.bits, &second.bits)?;
        let bits = word.as_slice();
        let new = IntWord::of(alloc, gates, bits)?;
        Ok(new)
    }

    /// Its bits with the highest one negated.
    fn flipped(&self) -> [Signal; 16]
        ensures long { length result ≡ 16 }
        ensures value { (v : ℕ → Bool) → IsFlipped 32768 (word_value v self.now.bits) (word_value v result) }
    {
        let mut bits = self.bits;
        bits[15] = bits[15].negated();
        bits
    }

    /// By how much it is more than the least INT.
    pub fn raised(&self) -> [Signal; 16]
        ensures long { length result ≡ 16 }
        ensures fits { (v : ℕ → Bool) → word_value v result < 2 ^ 16 }
        ensures value { (v : ℕ → Bool) → IsRaised (int_at v self.now) (word_value v result) }
    {
        let raised = self.flipped();
        raised
    }

    /// The INT that is more than the least one by so much.
    pub fn of_raised(alloc: Global, gates: &Gates, word: &[Signal]) -> Result<IntWord, AllocError>
        ensures { IfOk result (λ new. (v : ℕ → Bool) → Agrees v gates.now → word_value v word.now < 2 ^ 16
            → IsRaised (int_at v new) (word_value v word.now)) }
    {
        let raised = IntWord::of(alloc, gates, word)?;
        let bits = raised.flipped();
        Ok(IntWord { bits })
    }

    /// A signal that is TRUE where it is at most the other.
    pub fn at_most(&self, gates: &mut Gates, other: &IntWord) -> Result<Signal, AllocError>
        ensures { IfOk result (λ s. IsBuilt gates.old gates.new
            (λ v. signal_value v s ≡ int_le (int_at v self.now) (int_at v other.now))) }
    {
        let left = self.raised();
        let right = other.raised();
        let is = at_most(gates, &left, &right)?;
        Ok(is)
    }
}
