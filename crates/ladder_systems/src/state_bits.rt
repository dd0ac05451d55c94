ghost use Rattle.std.specs.Prelude.{◌≡◌, ◌++◌, ◌∷◌, [], IfOk, OnOk, length};
ghost use Rattle.gates.specs.Gates.{IsBuilt};
ghost use Rattle.scan_gates.specs.Encoded.{bits_at};
ghost use Rattle.scan_gates.specs.States.{AreLike, state_signals};
ghost use Rattle.ladder_systems.specs.Remembering.{marked};
ghost use Rattle.ladder_systems.specs.Steps.States.{AreQuiet, none};

use crate::first::push_slot;
use gates::{Gates, Signal};
use scan_gates::{EncodedSlot, push_signals, with_inputs};
use std::alloc::{AllocError, Global};

/// The same with state bits.
pub(crate) fn with_bits(
    alloc: Global,
    gates: &mut Gates,
    slots: &[EncodedSlot],
    bits: &mut Vec<Signal>,
) -> Result<Vec<EncodedSlot>, AllocError>
    ensures built { OnOk result (IsBuilt gates.old gates.new (λ _. Unit {0})) }
    ensures like { IfOk result (λ made. AreLike slots.now made.items) }
    ensures bits { IfOk result (λ made. bits.new.items ≡ bits.old.items ++ state_signals made.items []) }
{
    let mut made = Vec::new(alloc);
    for slot in slots {
        let next = with_inputs(gates, slot, bits)?;
        push_slot(next, &mut made)?;
    }
    Ok(made)
}

/// Puts a signal behind the others.
fn push_signal(signal: Signal, signals: &mut Vec<Signal>) -> Result<(), AllocError>
    ensures { OnOk result (signals.new.items ≡ signals.old.items ++ signal ∷ []) }
{
    signals.push(signal)?;
    Ok(())
}

/// The signal of the next state bit.
fn next_bit(gates: &mut Gates, bits: &mut Vec<Signal>) -> Result<Signal, AllocError>
    ensures built { OnOk result (IsBuilt gates.old gates.new (λ _. Unit {0})) }
    ensures bits { IfOk result (λ bit. bits.new.items ≡ bits.old.items ++ bit ∷ []) }
{
    let bit = gates.input(bits.len())?;
    bits.push(bit)?;
    Ok(bit)
}

/// The signal of a memory: the next state bit, if it is marked, and else one that is never TRUE.
fn memory_signal(
    gates: &mut Gates,
    mark: bool,
    bits: &mut Vec<Signal>,
) -> Result<Signal, AllocError>
    ensures quiet { IfOk result (λ s. IsBuilt gates.old gates.new (λ v. AreQuiet (mark ∷ []) (bits_at v (s ∷ [])))) }
    ensures bits { IfOk result (λ s. bits.new.items ≡ bits.old.items ++ marked (mark ∷ []) (s ∷ [])) }
{
    if mark {
        next_bit(gates, bits)
    } else {
        Ok(gates.constant(false))
    }
}

/// The signals of memories: a state bit for each that is marked, and else one that is never TRUE.
pub(crate) fn memory_signals(
    alloc: Global,
    gates: &mut Gates,
    marks: &[bool],
    bits: &mut Vec<Signal>,
) -> Result<Vec<Signal>, AllocError>
    ensures quiet { IfOk result (λ memories. IsBuilt gates.old gates.new (λ v. AreQuiet marks.now (bits_at v memories.items))) }
    ensures bits { IfOk result (λ memories. bits.new.items ≡ bits.old.items ++ marked marks.now memories.items) }
    ensures long { IfOk result (λ memories. length memories.items ≡ length marks.now) }
{
    let mut memories = Vec::new(alloc);
    for mark in marks {
        let signal = memory_signal(gates, *mark, bits)?;
        push_signal(signal, &mut memories)?;
    }
    Ok(memories)
}

/// Adds a signal, if it is marked.
fn push_if(mark: bool, signal: Signal, bits: &mut Vec<Signal>) -> Result<(), AllocError>
    ensures { OnOk result (bits.new.items ≡ bits.old.items ++ marked (mark ∷ []) (signal ∷ [])) }
{
    if mark {
        push_signal(signal, bits)
    } else {
        Ok(())
    }
}

/// Adds those of the signals that are marked.
pub(crate) fn push_marked(
    marks: &[bool],
    signals: &[Signal],
    bits: &mut Vec<Signal>,
) -> Result<(), AllocError>
    requires { length signals.now ≡ length marks.now }
    ensures { OnOk result (bits.new.items ≡ bits.old.items ++ marked marks.now signals.now) }
{
    for (k, mark) in marks.iter().enumerate() {
        push_if(*mark, signals[k], bits)?;
    }
    Ok(())
}

/// The signals of a state, in the order of the state bits.
pub(crate) fn bits_of(
    alloc: Global,
    slots: &[EncodedSlot],
    marks: &[bool],
    memories: &[Signal],
) -> Result<Vec<Signal>, AllocError>
    requires { length memories.now ≡ length marks.now }
    ensures { IfOk result (λ bits. bits.items ≡ state_signals slots.now (marked marks.now memories.now)) }
{
    let mut bits = Vec::new(alloc);
    for slot in slots {
        push_signals(slot, &mut bits)?;
    }
    push_marked(marks, memories, &mut bits)?;
    Ok(bits)
}

/// The values of signals where no variable is TRUE.
pub(crate) fn values_at_none(alloc: Global, signals: &[Signal]) -> Result<Vec<bool>, AllocError>
    ensures { IfOk result (λ values. values.items ≡ bits_at none signals.now) }
{
    let mut values = Vec::new(alloc);
    for signal in signals {
        values.push(signal.is_negated)?;
    }
    Ok(values)
}
