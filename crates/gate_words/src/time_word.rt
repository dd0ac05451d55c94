ghost use Rattle.std.specs.Prelude.{◌≡◌, length};

use crate::adding::bounded_sum;
use crate::choosing::if_then_else;
use crate::comparing::at_most;
use crate::numbers::{constant, resized};
use gates::{Gates, Signal};
use std::alloc::{AllocError, Global};

/// A TIME in milliseconds by its 32 bits, the lowest first.
#[derive(Clone, Copy, Debug)]
pub struct TimeWord {
    pub bits: [Signal; 32],
    pub ghost many: { length bits ≡ 32 },
}

impl TimeWord {
    ghost use Rattle.std.specs.Prelude.{◌^◌, ◌<◌, ◌+◌, min, ℕ, Bool, nat_le, if◌then◌else◌, IfOk};
    ghost use Rattle.gates.specs.Gates.{Agrees, IsBuilt};
    ghost use Rattle.gates.specs.Signals.{signal_value};
    ghost use Rattle.gate_words.specs.Words.{word_value};
    ghost use Rattle.gate_words.specs.Values.{time_at};

    pub fn zero(gates: &Gates) -> TimeWord
        ensures { (v : ℕ → Bool) → Agrees v gates.now → time_at v result ≡ 0 }
    {
        let off = gates.constant(false);
        TimeWord { bits: [off; 32] }
    }

    /// The first 32 bits of a word. Its number stays, where it fits.
    fn of(alloc: Global, gates: &Gates, word: &[Signal]) -> Result<TimeWord, AllocError>
        ensures { IfOk result (λ new. (v : ℕ → Bool) → Agrees v gates.now → word_value v word.now < 2 ^ 32
            → time_at v new ≡ word_value v word.now) }
    {
        let first = resized(alloc, gates, word, 32)?;
        let first = first.as_slice();
        let mut bits = [gates.constant(false); 32];
        bits.copy_from_slice(first);
        Ok(TimeWord { bits })
    }

    /// This time, whatever the variables are.
    pub fn constant(alloc: Global, gates: &Gates, time: u32) -> Result<TimeWord, AllocError>
        ensures { IfOk result (λ new. (v : ℕ → Bool) → Agrees v gates.now → time_at v new ≡ time) }
    {
        let word = constant(alloc, gates, u64::from(time))?;
        let bits = word.as_slice();
        let new = TimeWord::of(alloc, gates, bits)?;
        Ok(new)
    }

    /// The first where the condition is TRUE, and else the second.
    pub fn chosen(
        alloc: Global,
        gates: &mut Gates,
        condition: Signal,
        first: &TimeWord,
        second: &TimeWord,
    ) -> Result<TimeWord, AllocError>
        ensures { IfOk result (λ new. IsBuilt gates.old gates.new
            (λ v. time_at v new ≡ (if signal_value v condition then time_at v first.now else time_at v second.now))) }
    {
        let word = if_then_else(alloc, gates, condition, &first.bits, &second.bits)?;
        let bits = word.as_slice();
        let new = TimeWord::of(alloc, gates, bits)?;
        Ok(new)
    }

    /// It and another time, but at most a third.
    pub fn bounded_sum(
        &self,
        alloc: Global,
        gates: &mut Gates,
        other: &TimeWord,
        bound: &TimeWord,
    ) -> Result<TimeWord, AllocError>
        ensures { IfOk result (λ new. IsBuilt gates.old gates.new
            (λ v. time_at v new ≡ min (time_at v self.now + time_at v other.now) (time_at v bound.now))) }
    {
        let word = bounded_sum(alloc, gates, &self.bits, &other.bits, &bound.bits)?;
        let bits = word.as_slice();
        let new = TimeWord::of(alloc, gates, bits)?;
        Ok(new)
    }

    /// A signal that is TRUE where it is at most the other.
    pub fn at_most(&self, gates: &mut Gates, other: &TimeWord) -> Result<Signal, AllocError>
        ensures { IfOk result (λ s. IsBuilt gates.old gates.new
            (λ v. signal_value v s ≡ nat_le (time_at v self.now) (time_at v other.now))) }
    {
        let is = at_most(gates, &self.bits, &other.bits)?;
        Ok(is)
    }
}
