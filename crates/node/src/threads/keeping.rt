ghost use Rattle.std.specs.Prelude.{◌≡◌, [], IfErr, OnOk, OnErr};
ghost use Rattle.evaluation.specs.Retained.{retained_values};
ghost use Rattle.keepers.specs.Keepers.{KeepsEither, KeepsOthers};
ghost use Rattle.keepers.specs.LeftValues.{TellsLeft};
ghost use Rattle.node.specs.Steps.Keeping.{IsUnkept, KeepsMade, NotesUnkept};

use crate::threads::noted::Noted;
use evaluation::{Evaluation, Retained};
use keepers::Keeper;
use node_reports::Cause;
use std::alloc::Global;

/// Keeps what an evaluation left in the retained variables of its task, if the task has any. Memory: what is to be kept
/// couldn't be listed, and the keeper isn't asked. Keeper: it answered a fault.
fn keep_after<K: Keeper>(
    alloc: Global,
    keeper: &mut K,
    evaluation: &Evaluation,
) -> Result<(), Cause>
    ensures last { K.last keeper.new ≡ K.last keeper.old }
    ensures kept { OnOk result (TellsLeft (K.kept_gives keeper.new) evaluation.now) }
    ensures either { OnErr result (KeepsEither (K.kept_gives keeper.old) (K.kept_gives keeper.new) evaluation.now.name.task.task
        evaluation.now.code (retained_values evaluation.now.code evaluation.now.after)) }
    ensures others { KeepsOthers (K.kept_gives keeper.old) (K.kept_gives keeper.new) evaluation.now.name.task.task }
    ensures unasked { evaluation.now.code.retained ≡ [] → keeper.new ≡ keeper.old }
    ensures fault { IfErr result (IsUnkept K.keep_gives keeper.old keeper.new evaluation.now) }
{
    let code = evaluation.code();
    if code.retained().is_empty() {
        return Ok(());
    }
    let Ok(retained) = Retained::of(alloc, code, evaluation.after()) else {
        return Err(Cause::Memory);
    };
    match keeper.keep(evaluation.name().task.task, code, &retained) {
        Ok(()) => Ok(()),
        Err(_) => Err(Cause::Keeper),
    }
}

/// Keeps what an evaluation left, and notes the fault, if it isn't kept.
#[tactic(auto, using(crate::proofs::Noting::unkept_noted))]
pub(crate) fn keep_or_note<K: Keeper>(
    alloc: Global,
    keeper: &mut K,
    noted: &mut Noted,
    evaluation: &Evaluation,
)
    ensures last { K.last keeper.new ≡ K.last keeper.old }
    ensures made { KeepsMade (K.kept_gives keeper.old) (K.kept_gives keeper.new) noted.old noted.new evaluation.now }
    ensures told { NotesUnkept K.keep_gives keeper.old keeper.new noted.old noted.new evaluation.now }
{
    if let Err(cause) = keep_after(alloc, keeper, evaluation) {
        noted.note(evaluation.name().task.resource, evaluation.ticket(), cause);
    }
}
