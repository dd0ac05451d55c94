//! Evaluations that a resource made.

ghost use Rattle.std.specs.Prelude.{◌≡◌, IfOk, OnOk};
ghost use Rattle.std.specs.Option.{option_copied};
ghost use Rattle.audit.specs.declared.item.Item.TheVariants as item;
ghost use Rattle.evaluation.specs.Retained.{retained_values};
ghost use Rattle.audit.specs.Lines.{AreLeft, Evaluates};
ghost use Rattle.audit.specs.Steps.Standings.{IsGoing, IsPendingFor, IsStanding, journal_in, Grows, Goes};
ghost use Rattle.audit.specs.Steps.Following.{IsUndone, HasEntered, Comes};
ghost use Rattle.audit.specs.Steps.Settled.{Leaves};
ghost use Rattle.audit.specs.declared.standing.Standing.TheVariants.{Going};

use crate::book_of_audit::BookOfAudit;
use crate::item::Item;
use crate::kept::{are_same, opened_by};
use crate::outcome::Outcome;
use crate::past::Past;
use crate::reason::Reason;
use crate::standing::Standing;
use evaluation::{Evaluation, Inputs, Retained};
use node_reports::{PendingEvaluation, Station};
use std::alloc::{AllocError, Global};

/// What an evaluation leaves of its task's retained variables.
fn left_by(alloc: Global, evaluation: &Evaluation) -> Result<Retained, AllocError>
    ensures { IfOk result (λ left. left ≡ retained_values evaluation.now.code evaluation.now.after) }
{
    Retained::of(alloc, evaluation.code(), evaluation.after())
}

/// Whether an evaluation was noted and never done: a START stands behind it, and opens with other values of its task than
/// it leaves. The task can be evaluated.
fn is_undone(
    alloc: Global,
    station: &Station,
    next: Option<&Item>,
    ticket: u64,
    task: usize,
    dt: u32,
    inputs: &Inputs,
) -> Result<bool, AllocError>
    ensures { IfOk result (IsUndone station.now.core (option_copied next.entry) ticket task dt inputs.now) }
{
    let Some(kept) = opened_by(next, task) else {
        return Ok(false);
    };
    let messages = station.core().messages();
    match messages.preview(alloc, ticket, task, dt, inputs) {
        Ok(frame) => {
            let left = left_by(alloc, frame.evaluation())?;
            Ok(!are_same(kept, &left))
        }
        // Only memory can be wanting.
        Err(_) => Err(AllocError),
    }
}

/// Enters an evaluation into the book, and notes it as made.
#[tactic(auto, using(crate::proofs::GoingOn::entered_grows, crate::proofs::GoingOn::noted_going, crate::proofs::GoingOn::given_up, crate::proofs::GoingOn::grown_not))]
fn enter(
    alloc: Global,
    pending: PendingEvaluation,
    past: &mut Past,
    book: &mut BookOfAudit,
) -> Result<(Standing, Outcome), AllocError>
    requires pending { IsPendingFor book.old pending }
    requires left { AreLeft pending.journal past.old.left.items }
    ensures stands { IfOk result (λ r. IsStanding book.new r.0) }
    ensures resource { IfOk result (λ r. (journal_in r.0).resource ≡ pending.journal.resource) }
    ensures grows { OnOk result (Grows pending.journal.resource book.old book.new) }
    ensures entered { IfOk result (λ r. HasEntered book.new.book pending r.0 r.1) }
    ensures left { IfOk result (λ r. AreLeft (journal_in r.0) past.new.left.items) }
    ensures leaves { IfOk result (λ r. Leaves book.old book.new r.1) }
{
    let left = left_by(alloc, pending.frame().evaluation())?;
    let task = pending.frame().name().task.task;
    if let Some(misfit) = book.enter(pending.frame().try_clone()?)? {
        let stops = Outcome::Stops(Reason::Misfit(misfit));
        return Ok((Standing::Ended(pending.give_up()), stops));
    }
    match pending.note() {
        Ok(station) => {
            past.leave(task, left);
            Ok((Standing::Going(station), Outcome::Done))
        }
        Err(_) => Err(AllocError),
    }
}

/// Evaluates a task and enters what it makes, unless that was noted and never done; `next` is the line behind it.
#[tactic(auto, using(crate::proofs::GoingOn::pending_for, crate::proofs::GoingOn::made_goes, crate::proofs::GoingOn::goes_not))]
pub(crate) fn evaluate(
    alloc: Global,
    station: Station,
    next: Option<&Item>,
    ticket: u64,
    task: usize,
    dt: u32,
    inputs: &Inputs,
    past: &mut Past,
    book: &mut BookOfAudit,
) -> Result<(Standing, Outcome), AllocError>
    requires going { IsGoing book.old station }
    requires left { AreLeft station.journal past.old.left.items }
    ensures goes { IfOk result (λ r. Goes book.old book.new (Going station) r.0) }
    ensures comes { IfOk result (λ r. Comes book.new ticket (option_copied next.entry) (item.Evaluate task dt inputs.now) station r.0 r.1) }
    ensures left { IfOk result (λ r. AreLeft (journal_in r.0) past.new.left.items) }
    ensures leaves { IfOk result (λ r. Leaves book.old book.new r.1) }
{
    if station.core().next_number(task).is_err() {
        return Ok((Standing::Going(station), Outcome::Stops(Reason::Syntax)));
    }
    if is_undone(alloc, &station, next, ticket, task, dt, inputs)? {
        return Ok((Standing::Going(station), Outcome::Done));
    }
    match station.evaluate(alloc, ticket, task, dt, inputs) {
        Ok(pending) => enter(alloc, pending, past, book),
        // Only memory can be wanting.
        Err(_) => Err(AllocError),
    }
}
