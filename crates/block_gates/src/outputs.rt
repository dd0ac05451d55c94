use crate::instance::EncodedInstance;
use gate_words::{IntWord, TimeWord};
use gates::{Gates, Signal};

impl EncodedInstance {
    ghost use Rattle.std.specs.Prelude.{◌≡◌, ℕ, Bool, false, slice_index_or};
    ghost use Rattle.gates.specs.Gates.{Agrees};
    ghost use Rattle.gates.specs.Signals.{signal_value};
    ghost use Rattle.gate_words.specs.Values.{int_at, time_at};
    ghost use Rattle.block_gates.specs.Blocks.{outputs_at};

    fn first_output(&self) -> Signal
        ensures { (v : ℕ → Bool) → signal_value v result ≡ slice_index_or (outputs_at v self.now).bits 0 false }
    {
        match self {
            EncodedInstance::SR(on) | EncodedInstance::RS(on) => *on,
            EncodedInstance::CTU(counter) | EncodedInstance::CTD(counter) => counter.q,
            EncodedInstance::CTUD(counter) => counter.qu,
            EncodedInstance::TP(timer)
            | EncodedInstance::TON(timer)
            | EncodedInstance::TOF(timer) => timer.on,
        }
    }

    fn second_output(&self, gates: &Gates) -> Signal
        ensures { (v : ℕ → Bool) → Agrees v gates.now
            → signal_value v result ≡ slice_index_or (outputs_at v self.now).bits 1 false }
    {
        match self {
            EncodedInstance::CTUD(counter) => counter.qd,
            EncodedInstance::SR(_)
            | EncodedInstance::RS(_)
            | EncodedInstance::CTU(_)
            | EncodedInstance::CTD(_)
            | EncodedInstance::TP(_)
            | EncodedInstance::TON(_)
            | EncodedInstance::TOF(_) => gates.constant(false),
        }
    }

    /// The Boolean output at this place, from 0; never ON beyond the last.
    pub fn output_bit(&self, gates: &Gates, place: usize) -> Signal
        ensures { (v : ℕ → Bool) → Agrees v gates.now
            → signal_value v result ≡ slice_index_or (outputs_at v self.now).bits place false }
    {
        match place {
            0 => self.first_output(),
            1 => self.second_output(gates),
            _ => gates.constant(false),
        }
    }

    /// CV of a counter, and else 0.
    pub fn output_int(&self, gates: &Gates) -> IntWord
        ensures { (v : ℕ → Bool) → Agrees v gates.now → int_at v result ≡ (outputs_at v self.now).int }
    {
        match self {
            EncodedInstance::CTU(counter) | EncodedInstance::CTD(counter) => counter.count,
            EncodedInstance::CTUD(counter) => counter.count,
            EncodedInstance::SR(_)
            | EncodedInstance::RS(_)
            | EncodedInstance::TP(_)
            | EncodedInstance::TON(_)
            | EncodedInstance::TOF(_) => IntWord::zero(gates),
        }
    }

    /// ET of a timer, and else T#0ms.
    pub fn output_time(&self, gates: &Gates) -> TimeWord
        ensures { (v : ℕ → Bool) → Agrees v gates.now → time_at v result ≡ (outputs_at v self.now).time }
    {
        match self {
            EncodedInstance::TP(timer)
            | EncodedInstance::TON(timer)
            | EncodedInstance::TOF(timer) => timer.elapsed,
            EncodedInstance::SR(_)
            | EncodedInstance::RS(_)
            | EncodedInstance::CTU(_)
            | EncodedInstance::CTD(_)
            | EncodedInstance::CTUD(_) => TimeWord::zero(gates),
        }
    }
}
