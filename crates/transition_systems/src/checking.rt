ghost use Rattle.std.specs.Prelude.{OnOk};
ghost use Rattle.transition_systems.specs.Systems.{IsWhole, NeverBad};
ghost use Rattle.transition_systems.specs.Certificates.{AreInductive, LeadTo};

use crate::certificate::Certificate;
use crate::certificate_fault::CertificateFault;
use crate::first_state::hold_of;
use crate::formula::formula_of;
use crate::obligations::{check_kept, check_safe};
use crate::shape::is_whole;
use crate::system::TransitionSystem;
use clauses::{Literal, are_following};
use std::alloc::Global;

/// Checks that a certificate shows what a step of the system makes of its clauses: where they hold of a state and the row
/// keeps the constraint, this one isn't bad, and clauses hold of the next state.
pub(crate) fn check_step(
    alloc: Global,
    system: &TransitionSystem,
    certificate: &Certificate,
    kept: &[Vec<Literal>],
) -> Result<(), CertificateFault>
    ensures { OnOk result (LeadTo system.now certificate.now.clauses.items kept.now) }
{
    let steps = certificate.steps.as_slice();
    let next = system.next.as_slice();
    let clauses = certificate.clauses.as_slice();
    let places = certificate.kept.as_slice();
    check_kept(alloc, next, kept, places, steps)?;
    check_safe(alloc, system.bad, certificate.safe, steps)?;
    let formula = formula_of(alloc, system, clauses)?;
    let variables = system.gates.gates().len();
    let follows = are_following(alloc, variables, formula.as_slice(), steps)?;
    if follows {
        Ok(())
    } else {
        Err(CertificateFault::NotFollowing)
    }
}

/// Checks that a certificate shows that the system is never bad: its clauses hold of the first state; where they hold of a
/// state and the row keeps the constraint, they hold of the next state, and this one isn't bad. That one is refused says
/// nothing of the system.
pub fn check_certificate(
    alloc: Global,
    system: &TransitionSystem,
    certificate: &Certificate,
) -> Result<(), CertificateFault>
    ensures whole { OnOk result (IsWhole system.now) }
    ensures inductive { OnOk result (AreInductive system.now certificate.now.clauses.items) }
    ensures never { OnOk result (NeverBad system.now) }
{
    if !is_whole(system) {
        return Err(CertificateFault::NotWhole);
    }
    let clauses = certificate.clauses.as_slice();
    let first = system.first.as_slice();
    if !hold_of(clauses, first) {
        return Err(CertificateFault::NotAtFirst);
    }
    check_step(alloc, system, certificate, clauses)?;
    Ok(())
}
