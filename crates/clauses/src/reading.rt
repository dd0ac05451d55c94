ghost use Rattle.std.specs.Prelude.{◌≡◌, ◌↔◌, IsTrue, Any};
ghost use Rattle.clauses.specs.Steps.Readings.{IsFalse, IsKnownTrue, IsReading};

use crate::assignment::Assignment;
use crate::literal::Literal;

/// What a clause tells where something is known of variables.
#[derive(Clone, Copy, Debug, PartialEq, Eq)]
pub(crate) enum Reading {
    /// Each of its literals is FALSE.
    Conflict,
    /// Each of its literals is FALSE but this one, of which nothing is known.
    Unit(Literal),
    /// None of both.
    Open,
}

/// Whether a literal is known to be FALSE.
fn is_false(known: &Assignment, literal: Literal) -> bool
    ensures { IsTrue result ↔ IsFalse known.now literal }
{
    known.value(literal.variable) == Some(literal.is_negated)
}

/// Whether a literal of a clause is known to be TRUE.
pub(crate) fn is_any_true(known: &Assignment, clause: &[Literal]) -> bool
    ensures { IsTrue result → Any (IsKnownTrue known.now) clause.now }
{
    for literal in clause {
        if known.value(literal.variable) == Some(literal.wanted()) {
            return true;
        }
    }
    false
}

/// Reads a clause.
pub(crate) fn read_clause(known: &Assignment, clause: &[Literal]) -> Reading
    ensures { IsReading known.now clause.now result }
{
    let mut reading = Reading::Conflict;
    for literal in clause {
        if !is_false(known, *literal) {
            match reading {
                Reading::Conflict => reading = Reading::Unit(*literal),
                _ => return Reading::Open,
            }
        }
    }
    reading
}
