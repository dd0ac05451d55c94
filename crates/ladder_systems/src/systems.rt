ghost use Rattle.std.specs.Prelude.{◌≡◌, ◌↔◌, All, IfOk, OnOk, Some, length, true};
ghost use Rattle.std_blocks.specs.declared.value.Value.TheVariants as value;
ghost use Rattle.gates.specs.Gates.{IsBuilt};
ghost use Rattle.gates.specs.Signals.{signal_value};
ghost use Rattle.scan_steps.specs.Slots.{variable_at};
ghost use Rattle.scan_gates.specs.Encoded.{slots_at};
ghost use Rattle.ladder_systems.specs.LadderSystems.{IsSystemOf};

use crate::remembering::memory_marks;
use crate::scanning::scan_signals;
use crate::state_bits::bits_of;
use crate::state_signals::state_signals;
use gates::{Gates, Signal};
use scan_gates::{EncodedSlot, declared_are_like, states_are_signals, variable_on};
use std::alloc::{AllocError, Global};
use transition_systems::TransitionSystem;
use verifying::Setup;

/// A signal for each digit of a row, behind the state bits.
fn row_signals(
    alloc: Global,
    gates: &mut Gates,
    bits: &[Signal],
    digits: usize,
) -> Result<Vec<Signal>, AllocError>
    ensures built { OnOk result (IsBuilt gates.old gates.new (λ _. Unit {0})) }
    ensures long { IfOk result (λ row. length row.items ≡ digits) }
{
    let mut row = Vec::new(alloc);
    for _digit in 0..digits {
        let bit = gates.input(bits.len() + row.len())?;
        row.push(bit)?;
    }
    Ok(row)
}

/// A signal that is TRUE where all these variables are.
fn all_on(gates: &mut Gates, slots: &[EncodedSlot], places: &[usize]) -> Result<Signal, AllocError>
    ensures { IfOk result (λ s. IsBuilt gates.old gates.new (λ v. (signal_value v s ≡ true)
        ↔ All (λ place. variable_at (slots_at v slots.now) place ≡ Some (value.Bool true)) places.now)) }
{
    let mut on = gates.constant(true);
    for place in places {
        let here = variable_on(gates, slots, *place);
        on = gates.and(on, here)?;
    }
    Ok(on)
}

/// The system that the ladder of a setup is, where it is bad that the variable at a place is TRUE after a scan.
pub fn system_of(alloc: Global, setup: &Setup, place: usize) -> Result<TransitionSystem, AllocError>
    ensures { IfOk result (IsSystemOf setup.now place) }
{
    declared_are_like();
    states_are_signals();
    let mut gates = Gates::new(alloc)?;
    let marks = memory_marks(alloc, setup.ladder())?;
    let state = state_signals(alloc, &mut gates, setup.ladder(), &marks)?;
    let row = row_signals(alloc, &mut gates, &state.bits, setup.width())?;
    let mut slots = Vec::from_slice(alloc, &state.slots)?;
    let mut memories = Vec::from_slice(alloc, &state.memories)?;
    scan_signals(
        alloc,
        &mut gates,
        setup,
        &row,
        &state.first,
        &mut slots,
        &mut memories,
    )?;
    let next = bits_of(alloc, &slots, &marks, &memories)?;
    let constraint = all_on(&mut gates, &slots, setup.given())?;
    let bad = variable_on(&gates, &slots, place);
    Ok(TransitionSystem {
        gates,
        state: state.bits,
        inputs: row,
        first: state.at_first,
        next,
        constraint,
        bad,
    })
}
