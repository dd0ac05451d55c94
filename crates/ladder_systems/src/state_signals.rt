ghost use Rattle.std.specs.Prelude.{◌≡◌, [], ◌∷◌, IfOk, length, replicate};
ghost use Rattle.gates.specs.declared.gates.Gate.TheVariants.{Off};
ghost use Rattle.gates.specs.Gates.{IsBuilt};
ghost use Rattle.scan_gates.specs.Encoded.{bits_at, slots_at};
ghost use Rattle.scan_gates.specs.States.{state_signals};
ghost use Rattle.text_commands.specs.Restarts.{first_slots};
ghost use Rattle.ladder_systems.specs.Remembering.{marked, memory_marks};
ghost use Rattle.ladder_systems.specs.Steps.States.{AreOf, none, off};
ghost use Rattle.ladder_systems.specs.Steps.LadderStates.{AreStateSignals};

use crate::first::first_slots;
use crate::state_bits::{bits_of, memory_signals, values_at_none, with_bits};
use gates::{Gates, Signal};
use power_flow::Ladder;
use scan_gates::{EncodedSlot, declared_are_like, kinds_are_shapes, states_are_signals};
use std::alloc::{AllocError, Global};

/// The signals of a state.
#[derive(Drop)]
pub(crate) struct StateSignals {
    /// What stands at the names before the first scan.
    pub(crate) first: Vec<EncodedSlot>,
    /// The same with state bits.
    pub(crate) slots: Vec<EncodedSlot>,
    pub(crate) memories: Vec<Signal>,
    /// All state bits: those of the names, and behind them those of memories.
    pub(crate) bits: Vec<Signal>,
    /// Their values before the first scan.
    pub(crate) at_first: Vec<bool>,
}

/// So many signals that are never TRUE.
fn off_signals(alloc: Global, count: usize) -> Result<Vec<Signal>, AllocError>
    ensures { IfOk result (λ signals. signals.items ≡ replicate count off) }
{
    let mut signals = Vec::new(alloc);
    for _place in 0..count {
        signals.push(Signal {
            variable: 0,
            is_negated: false,
        })?;
    }
    Ok(signals)
}

/// The values of state bits where these stand at names, by signals that are constant, and each memory is OFF.
fn first_bits(alloc: Global, first: &[EncodedSlot], marks: &[bool]) -> Result<Vec<bool>, AllocError>
    ensures { IfOk result (λ values. values.items
        ≡ bits_at none (state_signals first.now (marked marks.now (replicate (length marks.now) off)))) }
{
    let memories = off_signals(alloc, marks.len())?;
    let signals = bits_of(alloc, first, marks, &memories)?;
    values_at_none(alloc, &signals)
}

/// State bits for what stands at the names of a ladder, in their order, and for each memory of an edge.
pub(crate) fn state_signals(
    alloc: Global,
    gates: &mut Gates,
    ladder: &Ladder,
    marks: &[bool],
) -> Result<StateSignals, AllocError>
    requires gates { gates.old ≡ Off ∷ [] }
    requires marks { marks.now ≡ memory_marks ladder.now.networks }
    ensures first { IfOk result (λ s. IsBuilt gates.old gates.new (λ v. slots_at v s.first.items ≡ first_slots ladder.now.declarations)) }
    ensures of { IfOk result (λ s. AreOf ladder.now.declarations s.first.items) }
    ensures state { IfOk result (λ s. AreStateSignals ladder.now gates.new s.slots.items s.memories.items s.bits.items s.at_first.items) }
{
    states_are_signals();
    kinds_are_shapes();
    declared_are_like();
    let first = first_slots(alloc, gates, ladder.declarations())?;
    let mut bits = Vec::new(alloc);
    let slots = with_bits(alloc, gates, &first, &mut bits)?;
    let memories = memory_signals(alloc, gates, marks, &mut bits)?;
    let at_first = first_bits(alloc, &first, marks)?;
    Ok(StateSignals {
        first,
        slots,
        memories,
        bits,
        at_first,
    })
}
