ghost use Rattle.std.specs.Prelude.{◌≡◌, ◌&&◌, ℕ, Bool, true, false, OnOk};
ghost use Rattle.clauses.specs.Clauses.{AreTrue, clause_value};
ghost use Rattle.gates.specs.Signals.{signal_value};
ghost use Rattle.gates.specs.Gates.{IsGate};

use crate::gates::{Gate, Gates};
use crate::signal::Signal;
use clauses::Literal;
use std::alloc::{AllocError, Global};

/// Puts a clause at the end.
fn put_clause(clauses: &mut Vec<Vec<Literal>>, clause: Vec<Literal>) -> Result<(), AllocError>
    ensures { OnOk result ((v : ℕ → Bool) → clause_value v clause.items ≡ true → AreTrue v clauses.old.items → AreTrue v clauses.new.items) }
{
    clauses.push(clause)?;
    Ok(())
}

/// Puts down that a signal is FALSE.
fn put_off(alloc: Global, clauses: &mut Vec<Vec<Literal>>, itself: Signal) -> Result<(), AllocError>
    ensures { OnOk result ((v : ℕ → Bool) → signal_value v itself ≡ false → AreTrue v clauses.old.items → AreTrue v clauses.new.items) }
{
    let is_not = itself.negated().literal();
    let clause = vec![in alloc; is_not]?;
    put_clause(clauses, clause)
}

/// Puts down that a signal is the AND of two others.
fn put_and(
    alloc: Global,
    clauses: &mut Vec<Vec<Literal>>,
    itself: Signal,
    left: Signal,
    right: Signal,
) -> Result<(), AllocError>
    ensures { OnOk result ((v : ℕ → Bool) → signal_value v itself ≡ (signal_value v left && signal_value v right)
        → AreTrue v clauses.old.items → AreTrue v clauses.new.items) }
{
    let is = itself.literal();
    let is_not = itself.negated().literal();
    let left_is = left.literal();
    let right_is = right.literal();
    let left_is_not = left.negated().literal();
    let right_is_not = right.negated().literal();
    let needs_left = vec![in alloc; is_not, left_is]?;
    put_clause(clauses, needs_left)?;
    let needs_right = vec![in alloc; is_not, right_is]?;
    put_clause(clauses, needs_right)?;
    let needs_no_more = vec![in alloc; is, left_is_not, right_is_not]?;
    put_clause(clauses, needs_no_more)
}

/// Puts down what the gate of a variable says.
fn put_gate(
    alloc: Global,
    clauses: &mut Vec<Vec<Literal>>,
    variable: usize,
    gate: Gate,
) -> Result<(), AllocError>
    ensures { OnOk result ((v : ℕ → Bool) → IsGate (v variable) v gate → AreTrue v clauses.old.items → AreTrue v clauses.new.items) }
{
    let itself = Signal {
        variable,
        is_negated: false,
    };
    match gate {
        Gate::Off => put_off(alloc, clauses, itself),
        Gate::Input(_) => Ok(()),
        Gate::And(left, right) => put_and(alloc, clauses, itself, left, right),
    }
}

impl Gates {
    ghost use Rattle.std.specs.Prelude.{ℕ, Bool, IfOk};
    ghost use Rattle.clauses.specs.Clauses.{AreTrue};
    ghost use Rattle.gates.specs.Gates.{Agrees};

    /// Clauses that are TRUE where each variable is what its gate says.
    pub fn clauses(&self, alloc: Global) -> Result<Vec<Vec<Literal>>, AllocError>
        ensures { IfOk result (λ clauses. (v : ℕ → Bool) → Agrees v self.now → AreTrue v clauses.items) }
    {
        let gates = self.gates();
        let mut clauses = Vec::new(alloc);
        for (variable, gate) in gates.iter().enumerate() {
            put_gate(alloc, &mut clauses, variable, *gate)?;
        }
        Ok(clauses)
    }
}
