ghost use Rattle.std.specs.Prelude.{IsTrue, OnOk, List};
ghost use Rattle.std.specs.Global.{Vec};
ghost use Rattle.clauses.specs.declared.literal.Literal.{Literal as LiteralValue};
ghost use Rattle.clauses.specs.Clauses.{AreFollowing, FollowsFrom};
ghost use Rattle.transition_systems.specs.Steps.Inductive.{AreShown, IsShownFalse};

use crate::certificate_fault::CertificateFault;
use crate::over_signals::{clause_of, clause_over};
use clauses::{Literal, Step};
use gates::Signal;
use std::alloc::Global;

/// Whether a step's clause is this one.
fn is_shown(steps: &[Step], number: usize, clause: &[Literal]) -> bool
    ensures { IsTrue result → (formula : List (Vec LiteralValue)) → AreFollowing formula steps.now → FollowsFrom formula clause.now }
{
    let Some(step) = steps.get(number) else {
        return false;
    };
    step.clause.as_slice() == clause
}

/// Whether steps show that the clauses hold of the signals that the state bits become.
pub(crate) fn check_kept(
    alloc: Global,
    next: &[Signal],
    clauses: &[Vec<Literal>],
    kept: &[usize],
    steps: &[Step],
) -> Result<(), CertificateFault>
    ensures { OnOk result (AreShown steps.now clauses.now next.now) }
{
    for (place, clause) in clauses.iter().enumerate() {
        let Some(number) = kept.get(place) else {
            return Err(CertificateFault::NotKept);
        };
        let over = clause_over(alloc, next, clause.as_slice())?;
        if !is_shown(steps, *number, over.as_slice()) {
            return Err(CertificateFault::NotKept);
        }
    }
    Ok(())
}

/// Whether a step shows that a signal is FALSE.
pub(crate) fn check_safe(
    alloc: Global,
    bad: Signal,
    safe: usize,
    steps: &[Step],
) -> Result<(), CertificateFault>
    ensures { OnOk result (IsShownFalse steps.now bad) }
{
    let not_bad = clause_of(alloc, bad.negated())?;
    if is_shown(steps, safe, not_bad.as_slice()) {
        Ok(())
    } else {
        Err(CertificateFault::NotSafe)
    }
}
