ghost use Rattle.std.specs.Prelude.{ℕ, Bool, IfOk, OnOk};
ghost use Rattle.clauses.specs.Clauses.{AreTrue};
ghost use Rattle.transition_systems.specs.Systems.{bits_at};
ghost use Rattle.transition_systems.specs.Certificates.{HoldOf};
ghost use Rattle.transition_systems.specs.Steps.Inductive.{IsFormula};

use crate::certificate_fault::CertificateFault;
use crate::over_signals::{clause_of, clause_over, put_clause};
use crate::system::TransitionSystem;
use clauses::Literal;
use gates::Signal;
use std::alloc::Global;

/// Puts down that clauses over bits hold of the bits that are signals.
fn put_over(
    alloc: Global,
    formula: &mut Vec<Vec<Literal>>,
    signals: &[Signal],
    clauses: &[Vec<Literal>],
) -> Result<(), CertificateFault>
    ensures { OnOk result ((v : ℕ → Bool) → HoldOf clauses.now (bits_at v signals.now) → AreTrue v formula.old.items → AreTrue v formula.new.items) }
{
    for clause in clauses {
        let over = clause_over(alloc, signals, clause.as_slice())?;
        put_clause(formula, over)?;
    }
    Ok(())
}

/// What holds of a step of the system from a state of which the clauses hold: what the gates say, the clauses in their
/// order, and the constraint. The steps of a certificate start from it.
pub fn formula_of(
    alloc: Global,
    system: &TransitionSystem,
    clauses: &[Vec<Literal>],
) -> Result<Vec<Vec<Literal>>, CertificateFault>
    ensures { IfOk result (λ formula. IsFormula system.now clauses.now formula.items) }
{
    let mut formula = system.gates.clauses(alloc)?;
    put_over(alloc, &mut formula, &system.state, clauses)?;
    let given = clause_of(alloc, system.constraint)?;
    put_clause(&mut formula, given)?;
    Ok(formula)
}
