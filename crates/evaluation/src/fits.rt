ghost use Rattle.std.specs.Prelude.{◌↔◌, IsTrue};
ghost use Rattle.task_codes.specs.declared.task_ref.TaskRef.{TaskRef};
ghost use Rattle.evaluation.specs.Takes.{IsTakeOf, AreTakesOf};
ghost use Rattle.evaluation.specs.States.{AreStatesOf};

use crate::take::Take;
use crate::task_state::TaskState;
use declared_names::Kind;
use power_flow::Snapshot;
use task_codes::{TaskCode, TaskRef};

/// Whether a state is one of a task's code: one state for each program, with its variables and their kinds, its blocks, its memories, and the places that a scan works in.
pub fn fits_state(code: &TaskCode, state: &TaskState) -> bool
    ensures { IsTrue result ↔ AreStatesOf code.now state.now }
{
    are_states_of(code, state.states())
}

fn are_states_of(code: &TaskCode, states: &[Snapshot]) -> bool
    ensures { IsTrue result ↔ AreStatesOf code.now states.now }
{
    if states.len() != code.programs() {
        return false;
    }
    for i in 0..states.len() {
        let Some(ladder) = code.ladder(i) else {
            return false;
        };
        if !ladder.fits_snapshot(&states[i]) {
            return false;
        }
    }
    true
}

/// Whether takes are those of a task's code: one for each producer in order, with values of the kinds expected, and with the initial image where `from` is None.
pub fn suits_takes(code: &TaskCode, takes: &[Take]) -> bool
    ensures { IsTrue result ↔ AreTakesOf code.now takes.now }
{
    let producers = code.producers();
    if takes.len() != producers.len() {
        return false;
    }
    for k in 0..takes.len() {
        if !is_take_of(producers[k], code.expected(k), &takes[k]) {
            return false;
        }
    }
    true
}

fn is_take_of(producer: TaskRef, kinds: &[Kind], take: &Take) -> bool
    ensures { IsTrue result ↔ IsTakeOf producer kinds.now take.now }
{
    take.producer == producer
        && take.image.has_kinds(kinds)
        && (take.from.is_some() || take.image.is_initial(kinds))
}
