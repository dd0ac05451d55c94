ghost use Rattle.std.specs.Prelude.{◌≡◌, ◌++◌, ◌∷◌, [], ◌↔◌, ℕ, Bool, List, IsTrue, IfOk, OnOk, if◌then◌else◌, length};
ghost use Rattle.gates.specs.declared.signal.Signal.{Signal as SignalValue};
ghost use Rattle.gates.specs.Gates.{IsBuilt};
ghost use Rattle.gates.specs.Signals.{signal_value};
ghost use Rattle.declared_names.specs.declared.declarations.Declaration.{Declaration};
ghost use Rattle.scan_steps.specs.Slots.{AreSlotsOf};
ghost use Rattle.scan_gates.specs.declared.encoded.EncodedSlot.{EncodedSlot as SlotValue};
ghost use Rattle.scan_gates.specs.Encoded.{bits_at, slot_at, slots_at};
ghost use Rattle.scan_gates.specs.States.{AreLike, IsLike, shape_of, slot_of, slot_signals, state_signals};
ghost use Rattle.scan_gates.specs.Steps.Pushing.{HasMore};

use crate::encoded::{EncodedSlot, EncodedValue};
use gates::{Gates, Signal};
use std::alloc::{AllocError, Global};

/// What stands at names, and memories, are just what the values of their signals say.
pub fn states_are_signals()
    ensures slot { (v : ℕ → Bool) (s : SlotValue) → slot_at v s ≡ slot_of (shape_of s) (bits_at v (slot_signals s)) }
    ensures states { (v w : ℕ → Bool) (a b : List SlotValue) (m n : List SignalValue) → AreLike a b
        → bits_at v (state_signals a m) ≡ bits_at w (state_signals b n)
        → (slots_at v a ≡ slots_at w b) × (bits_at v m ≡ bits_at w n) }
{}

/// What is like what is declared is what is declared.
pub fn kinds_are_shapes()
    ensures { (v w : ℕ → Bool) (ds : List Declaration) (a b : List SlotValue) → AreLike a b → AreSlotsOf ds (slots_at v a)
        → AreSlotsOf ds (slots_at w b) }
{}

/// What is declared once is alike.
pub fn declared_are_like()
    ensures { (v w : ℕ → Bool) (ds : List Declaration) (a b : List SlotValue) → AreSlotsOf ds (slots_at v a)
        → AreSlotsOf ds (slots_at w b) → AreLike a b }
{}

/// Whether both are variables of one kind, or blocks of one type.
pub fn is_like(first: &EncodedSlot, second: &EncodedSlot) -> bool
    ensures { IsTrue result ↔ IsLike first.now second.now }
{
    first.shape() == second.shape()
}

/// Puts the signals of a slot behind the others.
pub fn push_signals(slot: &EncodedSlot, signals: &mut Vec<Signal>) -> Result<(), AllocError>
    ensures { OnOk result (signals.new.items ≡ signals.old.items ++ slot_signals slot.now) }
{
    match slot {
        EncodedSlot::Variable(EncodedValue::Bool(on)) => {
            signals.push(*on)?;
            Ok(())
        }
        EncodedSlot::Variable(EncodedValue::Int(word)) => {
            signals.extend_from_slice(&word.bits)?;
            Ok(())
        }
        EncodedSlot::Variable(EncodedValue::Time(word)) => {
            signals.extend_from_slice(&word.bits)?;
            Ok(())
        }
        EncodedSlot::Block(instance) => {
            instance.push_signals(signals)?;
            Ok(())
        }
    }
}

/// Puts a new input behind the others: the one with its place as its number.
fn push_input(gates: &mut Gates, signals: &mut Vec<Signal>) -> Result<(), AllocError>
    ensures built { OnOk result (IsBuilt gates.old gates.new (λ _. Unit {0})) }
    ensures more { OnOk result (HasMore signals.old.items signals.new.items 1) }
{
    let input = gates.input(signals.len())?;
    signals.push(input)?;
    Ok(())
}

/// Puts so many new inputs behind the others.
fn push_inputs(gates: &mut Gates, count: usize, signals: &mut Vec<Signal>) -> Result<(), AllocError>
    ensures built { OnOk result (IsBuilt gates.old gates.new (λ _. Unit {0})) }
    ensures more { OnOk result (HasMore signals.old.items signals.new.items count) }
{
    for _input in 0..count {
        push_input(gates, signals)?;
    }
    Ok(())
}

/// A slot of the same shape with new inputs as its signals, which are put behind the others: each with its place as its
/// number.
pub fn with_inputs(
    gates: &mut Gates,
    slot: &EncodedSlot,
    signals: &mut Vec<Signal>,
) -> Result<EncodedSlot, AllocError>
    ensures built { OnOk result (IsBuilt gates.old gates.new (λ _. Unit {0})) }
    ensures like { IfOk result (λ new. IsLike slot.now new) }
    ensures signals { IfOk result (λ new. signals.new.items ≡ signals.old.items ++ slot_signals new) }
{
    let shape = slot.shape();
    let before = signals.len();
    let width = shape.width();
    push_inputs(gates, width, signals)?;
    let all = signals.as_slice();
    let new = EncodedSlot::of_signals(shape, &all[before..]);
    Ok(new)
}

/// The first signals where the condition is TRUE, and else the second.
fn chosen_signals(
    alloc: Global,
    gates: &mut Gates,
    condition: Signal,
    first: &[Signal],
    second: &[Signal],
) -> Result<Vec<Signal>, AllocError>
    requires { length first.now ≡ length second.now }
    ensures long { IfOk result (λ new. length new.items ≡ length first.now) }
    ensures built { IfOk result (λ new. IsBuilt gates.old gates.new
        (λ v. bits_at v new.items ≡ (if signal_value v condition then bits_at v first.now else bits_at v second.now))) }
{
    let mut new = Vec::new(alloc);
    for place in 0..first.len() {
        let one = gates.if_then_else(condition, first[place], second[place])?;
        new.push(one)?;
    }
    Ok(new)
}

/// The first slot where the condition is TRUE, and else the second, which is like it.
pub fn chosen(
    alloc: Global,
    gates: &mut Gates,
    condition: Signal,
    first: &EncodedSlot,
    second: &EncodedSlot,
) -> Result<EncodedSlot, AllocError>
    requires { IsLike first.now second.now }
    ensures like { IfOk result (λ new. IsLike first.now new) }
    ensures built { IfOk result (λ new. IsBuilt gates.old gates.new
        (λ v. slot_at v new ≡ (if signal_value v condition then slot_at v first.now else slot_at v second.now))) }
{
    let mut one = Vec::new(alloc);
    push_signals(first, &mut one)?;
    let mut other = Vec::new(alloc);
    push_signals(second, &mut other)?;
    let of_first = one.as_slice();
    let of_second = other.as_slice();
    let all = chosen_signals(alloc, gates, condition, of_first, of_second)?;
    let signals = all.as_slice();
    let new = EncodedSlot::of_signals(first.shape(), signals);
    Ok(new)
}
