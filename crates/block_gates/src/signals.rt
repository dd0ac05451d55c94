ghost use Rattle.std.specs.Prelude.{◌≡◌, [], ◌∷◌, ℕ, Bool, length, map};
ghost use Rattle.gates.specs.Signals.{signal_value};
ghost use Rattle.block_gates.specs.declared.instance.EncodedInstance.{EncodedInstance as InstanceValue};
ghost use Rattle.block_gates.specs.Blocks.{outputs_at, state_at, type_of};
ghost use Rattle.block_gates.specs.Signals.{instance_signals, outputs_of, signals_of, state_of};

use crate::instance::{EncodedCounter, EncodedInstance, EncodedTimer, EncodedUpDown};
use gate_words::{IntWord, TimeWord};
use gates::Signal;
use std::alloc::AllocError;
use std_blocks::BlockType;

/// A block is just what the values of its signals say, and no others say the same.
pub fn blocks_are_signals()
    ensures many { (i : InstanceValue) → length (instance_signals i) ≡ signals_of (type_of i) }
    ensures state { (v : ℕ → Bool) (i : InstanceValue)
        → state_at v i ≡ state_of (type_of i) (map (signal_value v) (instance_signals i)) }
    ensures outputs { (v : ℕ → Bool) (i : InstanceValue)
        → outputs_at v i ≡ outputs_of (type_of i) (map (signal_value v) (instance_signals i)) }
    ensures bits { (v w : ℕ → Bool) (i j : InstanceValue) → type_of i ≡ type_of j → state_at v i ≡ state_at w j
        → outputs_at v i ≡ outputs_at w j → map (signal_value v) (instance_signals i) ≡ map (signal_value w) (instance_signals j) }
{}

/// The INT of sixteen signals.
pub fn int_word(signals: &[Signal]) -> IntWord
    requires { length signals.now ≡ 16 }
    ensures { result.bits ≡ signals.now }
{
    let mut bits = [signals[0]; 16];
    bits.copy_from_slice(signals);
    IntWord { bits }
}

/// The TIME of 32 signals.
pub fn time_word(signals: &[Signal]) -> TimeWord
    requires { length signals.now ≡ 32 }
    ensures { result.bits ≡ signals.now }
{
    let mut bits = [signals[0]; 32];
    bits.copy_from_slice(signals);
    TimeWord { bits }
}

fn only(signals: &[Signal]) -> Signal
    requires { length signals.now ≡ 1 }
    ensures { (result ∷ []) ≡ signals.now }
{
    signals[0]
}

fn counter(signals: &[Signal]) -> EncodedCounter
    requires { length signals.now ≡ 18 }
    ensures { (result.last ∷ result.q ∷ result.count.bits) ≡ signals.now }
{
    let count = int_word(&signals[2..]);
    EncodedCounter {
        last: signals[0],
        q: signals[1],
        count,
    }
}

fn up_down(signals: &[Signal]) -> EncodedUpDown
    requires { length signals.now ≡ 20 }
    ensures { (result.last_up ∷ result.last_down ∷ result.qu ∷ result.qd ∷ result.count.bits) ≡ signals.now }
{
    let count = int_word(&signals[4..]);
    EncodedUpDown {
        last_up: signals[0],
        last_down: signals[1],
        qu: signals[2],
        qd: signals[3],
        count,
    }
}

fn timer(signals: &[Signal]) -> EncodedTimer
    requires { length signals.now ≡ 34 }
    ensures { (result.last_in ∷ result.on ∷ result.elapsed.bits) ≡ signals.now }
{
    let elapsed = time_word(&signals[2..]);
    EncodedTimer {
        last_in: signals[0],
        on: signals[1],
        elapsed,
    }
}

impl EncodedInstance {
    ghost use Rattle.std.specs.Prelude.{◌≡◌, ◌++◌, length, OnOk};
    ghost use Rattle.block_gates.specs.Blocks.{type_of};
    ghost use Rattle.block_gates.specs.Signals.{instance_signals, signals_of};

    pub fn block_type(&self) -> BlockType
        ensures { result ≡ type_of self.now }
    {
        match self {
            EncodedInstance::SR(_) => BlockType::SR,
            EncodedInstance::RS(_) => BlockType::RS,
            EncodedInstance::CTU(_) => BlockType::CTU,
            EncodedInstance::CTD(_) => BlockType::CTD,
            EncodedInstance::CTUD(_) => BlockType::CTUD,
            EncodedInstance::TP(_) => BlockType::TP,
            EncodedInstance::TON(_) => BlockType::TON,
            EncodedInstance::TOF(_) => BlockType::TOF,
        }
    }

    /// The block of this type with these signals: as many as such a block has.
    pub fn of_signals(block: BlockType, signals: &[Signal]) -> EncodedInstance
        requires { length signals.now ≡ signals_of block }
        ensures kind { type_of result ≡ block }
        ensures signals { instance_signals result ≡ signals.now }
    {
        match block {
            BlockType::SR => EncodedInstance::SR(only(signals)),
            BlockType::RS => EncodedInstance::RS(only(signals)),
            BlockType::CTU => EncodedInstance::CTU(counter(signals)),
            BlockType::CTD => EncodedInstance::CTD(counter(signals)),
            BlockType::CTUD => EncodedInstance::CTUD(up_down(signals)),
            BlockType::TP => EncodedInstance::TP(timer(signals)),
            BlockType::TON => EncodedInstance::TON(timer(signals)),
            BlockType::TOF => EncodedInstance::TOF(timer(signals)),
        }
    }

    /// Puts its signals behind the others.
    pub fn push_signals(&self, signals: &mut Vec<Signal>) -> Result<(), AllocError>
        ensures { OnOk result (signals.new.items ≡ signals.old.items ++ instance_signals self.now) }
    {
        match self {
            EncodedInstance::SR(q1) | EncodedInstance::RS(q1) => {
                signals.extend_from_slice(&[*q1])?;
                Ok(())
            }
            EncodedInstance::CTU(counter) | EncodedInstance::CTD(counter) => {
                signals.extend_from_slice(&[counter.last, counter.q])?;
                signals.extend_from_slice(&counter.count.bits)?;
                Ok(())
            }
            EncodedInstance::CTUD(counter) => {
                let edges = [counter.last_up, counter.last_down];
                let shown = [counter.qu, counter.qd];
                signals.extend_from_slice(&edges)?;
                signals.extend_from_slice(&shown)?;
                signals.extend_from_slice(&counter.count.bits)?;
                Ok(())
            }
            EncodedInstance::TP(timer)
            | EncodedInstance::TON(timer)
            | EncodedInstance::TOF(timer) => {
                signals.extend_from_slice(&[timer.last_in, timer.on])?;
                signals.extend_from_slice(&timer.elapsed.bits)?;
                Ok(())
            }
        }
    }
}
