ghost use Rattle.std.specs.Prelude.{◌≡◌};
ghost use Rattle.node_reports.specs.Codes.{IsOfPlant};
ghost use Rattle.node.specs.Steps.Keeping.{Keeps};
ghost use Rattle.node.specs.Steps.States.{IsWorking, journal_of};

use crate::threads::entered::Entered;
use crate::threads::keeping::keep_or_note;
use crate::threads::noted::Noted;
use crate::threads::of_plant::OfPlant;
use crate::threads::plant_book::PlantBook;
use crate::threads::worker_state::WorkerState;
use evaluation::Frame;
use keepers::Keeper;
use node_reports::{Cause, PendingEvaluation};
use std::alloc::Global;
use std::sync::{Mutex, Wait};

/// Enters a copy of an evaluation. The lock is held for that alone.
fn enter<R: Wait, P: OfPlant>(
    rt: &R,
    shared: &Mutex<PlantBook<P>>,
    frame: &Frame,
) -> Result<(), Cause>
    requires { IsOfPlant P.plant frame.now }
{
    let Ok(copy) = frame.try_clone() else {
        return Err(Cause::Memory);
    };
    shared.lock(rt).enter(copy)
}

/// Enters the evaluation that a resource has made, keeps its task's retained variables, and then notes it in the journal.
/// Where it isn't entered or noted, the resource is stopped. That it isn't kept is noted as a fault.
pub(crate) fn enter_pending<R: Wait, K: Keeper, P: OfPlant>(
    rt: &R,
    alloc: Global,
    book: &Mutex<PlantBook<P>>,
    keeper: &mut K,
    noted: &mut Noted,
    pending: PendingEvaluation,
) -> (WorkerState, Result<Entered, Cause>)
    requires kept { K.last keeper.old ≡ pending.core.incarnation }
    requires plant { pending.core.plant ≡ P.plant }
    ensures working { IsWorking pending.core.plant pending.core.first pending.core.max_number (K.last keeper.new) result.0 }
    ensures first { (journal_of result.0).first ≡ pending.journal.first }
    ensures opening { (journal_of result.0).opening ≡ pending.journal.opening }
    ensures keeps { Keeps (K.last keeper.old) (K.kept_gives keeper.old) pending.core.plant noted.old pending.journal
        → Keeps (K.last keeper.new) (K.kept_gives keeper.new) pending.core.plant noted.new (journal_of result.0) }
{
    if let Err(cause) = enter(rt, book, pending.frame()) {
        return (WorkerState::Stopped(pending.give_up()), Err(cause));
    }
    keep_or_note(alloc, keeper, noted, pending.frame().evaluation());
    let frame = pending.frame().try_clone().ok();
    match pending.note() {
        Ok(station) => (WorkerState::Running(station), Ok(Entered { frame })),
        Err(journal) => {
            noted.lose();
            (WorkerState::Stopped(journal), Err(Cause::Memory))
        }
    }
}
