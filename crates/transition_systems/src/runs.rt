ghost use Rattle.std.specs.Prelude.{◌≡◌, length, IfOk, IsTrue};
ghost use Rattle.gates.specs.Signals.{bit_of};
ghost use Rattle.transition_systems.specs.Systems.{AreValuesAt, bits_at};
ghost use Rattle.transition_systems.specs.Runs.{IsBadRun};
ghost use Rattle.transition_systems.specs.Steps.Inputs.{IsLaidOut};

use crate::shape::is_whole;
use crate::system::TransitionSystem;
use gates::{Signal, value_in};
use std::alloc::{AllocError, Global};

/// The values of signals, where these are the values of the variables.
fn bits_of(alloc: Global, values: &[bool], signals: &[Signal]) -> Result<Vec<bool>, AllocError>
    ensures { IfOk result (λ bits. bits.items ≡ bits_at (bit_of values.now) signals.now) }
{
    let mut bits = Vec::new(alloc);
    for signal in signals {
        let bit = value_in(values, *signal);
        bits.push(bit)?;
    }
    Ok(bits)
}

/// The values of the system's variables in a state under a row of inputs.
fn values_at(
    alloc: Global,
    system: &TransitionSystem,
    state: &[bool],
    row: &[bool],
) -> Result<Vec<bool>, AllocError>
    ensures { IfOk result (λ values. IsLaidOut system.now → length state.now ≡ length system.now.state.items
        → length row.now ≡ length system.now.inputs.items → AreValuesAt system.now state.now row.now (bit_of values.items)) }
{
    let mut inputs = Vec::from_slice(alloc, state)?;
    inputs.extend_from_slice(row)?;
    system.gates.values(alloc, inputs.as_slice())
}

/// Whether the rows, done from the first state on, keep the constraint up to one under which the system is bad. Where it says
/// no, the system may not be whole, or a row not be as long as its inputs.
pub fn reaches_bad(
    alloc: Global,
    system: &TransitionSystem,
    rows: &[Vec<bool>],
) -> Result<bool, AllocError>
    ensures { IfOk result (λ yes. IsTrue yes → IsBadRun system.now rows.now) }
{
    if !is_whole(system) {
        return Ok(false);
    }
    let mut state = Vec::from_slice(alloc, system.first.as_slice())?;
    for row in rows {
        if row.len() != system.inputs.len() {
            return Ok(false);
        }
        let values = values_at(alloc, system, state.as_slice(), row.as_slice())?;
        if !value_in(values.as_slice(), system.constraint) {
            return Ok(false);
        }
        if value_in(values.as_slice(), system.bad) {
            return Ok(true);
        }
        state = bits_of(alloc, values.as_slice(), system.next.as_slice())?;
    }
    Ok(false)
}
