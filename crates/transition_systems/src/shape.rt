ghost use Rattle.std.specs.Prelude.{IsTrue};
ghost use Rattle.transition_systems.specs.Systems.{IsWhole};
ghost use Rattle.transition_systems.specs.Steps.Inputs.{AreInputs, IsInput, IsLaidOut};

use crate::system::TransitionSystem;
use gates::{Gate, Signal};

/// Whether a signal is the input with a number.
fn is_input(gates: &[Gate], number: usize, signal: Signal) -> bool
    ensures { IsTrue result → IsInput gates.now number signal }
{
    match gates.get(signal.variable) {
        Some(Gate::Input(found)) => *found == number && !signal.is_negated,
        _ => false,
    }
}

/// Whether signals are the inputs from a number on.
fn are_inputs(gates: &[Gate], from: usize, signals: &[Signal]) -> bool
    ensures { IsTrue result → AreInputs gates.now from signals.now }
{
    for (place, signal) in signals.iter().enumerate() {
        let Some(number) = from.checked_add(place) else {
            return false;
        };
        if !is_input(gates, number, *signal) {
            return false;
        }
    }
    true
}

/// Whether the parts of a system fit together, so that it goes on from each state under each row.
pub fn is_whole(system: &TransitionSystem) -> bool
    ensures whole { IsTrue result → IsWhole system.now }
    ensures laid_out { IsTrue result → IsLaidOut system.now }
{
    let count = system.state.len();
    if system.first.len() != count {
        return false;
    }
    if system.next.len() != count {
        return false;
    }
    if !system.gates.is_ordered() {
        return false;
    }
    let gates = system.gates.gates();
    if !are_inputs(gates, 0, &system.state) {
        return false;
    }
    are_inputs(gates, count, &system.inputs)
}
