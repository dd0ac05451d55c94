ghost use Rattle.std.specs.Prelude.{◌≡◌, ◌++◌, [], ◌∷◌, ℕ, Bool, true, IfOk, IfSome, OnOk};
ghost use Rattle.clauses.specs.Clauses.{AreTrue, clause_value, literal_value};
ghost use Rattle.gates.specs.Signals.{bit_of, signal_value};
ghost use Rattle.transition_systems.specs.Systems.{bits_at};

use crate::certificate_fault::CertificateFault;
use clauses::Literal;
use gates::Signal;
use std::alloc::{AllocError, Global};

/// The clause of one signal.
pub(crate) fn clause_of(alloc: Global, signal: Signal) -> Result<Vec<Literal>, AllocError>
    ensures { IfOk result (λ clause. (v : ℕ → Bool) → clause_value v clause.items ≡ signal_value v signal) }
{
    let is = signal.literal();
    let clause = vec![in alloc; is]?;
    Ok(clause)
}

/// Puts a clause at the end.
pub(crate) fn put_clause(
    formula: &mut Vec<Vec<Literal>>,
    clause: Vec<Literal>,
) -> Result<(), AllocError>
    ensures { OnOk result ((v : ℕ → Bool) → clause_value v clause.items ≡ true → AreTrue v formula.old.items → AreTrue v formula.new.items) }
{
    formula.push(clause)?;
    Ok(())
}

/// Puts a literal at the end.
fn put_literal(clause: &mut Vec<Literal>, literal: Literal) -> Result<(), AllocError>
    ensures { OnOk result (clause.new.items ≡ clause.old.items ++ literal ∷ []) }
{
    clause.push(literal)?;
    Ok(())
}

/// The literal of the signal of a bit.
fn literal_over(signals: &[Signal], literal: Literal) -> Option<Literal>
    ensures { IfSome result (λ l. (v : ℕ → Bool) → literal_value v l ≡ literal_value (bit_of (bits_at v signals.now)) literal) }
{
    let signal = signals.get(literal.variable)?;
    if literal.is_negated {
        Some(signal.negated().literal())
    } else {
        Some(signal.literal())
    }
}

/// The clause that says of the signals of bits what a clause says of the bits. There is none, where it names a bit that has
/// no signal.
pub fn clause_over(
    alloc: Global,
    signals: &[Signal],
    clause: &[Literal],
) -> Result<Vec<Literal>, CertificateFault>
    ensures { IfOk result (λ over. (v : ℕ → Bool) → clause_value v over.items ≡ clause_value (bit_of (bits_at v signals.now)) clause.now) }
{
    let mut over = Vec::new(alloc);
    for literal in clause {
        let Some(found) = literal_over(signals, *literal) else {
            return Err(CertificateFault::NoSuchBit);
        };
        put_literal(&mut over, found)?;
    }
    Ok(over)
}
