ghost use Rattle.std.specs.Prelude.{◌≡◌, IfOk, IsTrue, MatchOption, Contains, ⊤};
ghost use Rattle.clauses.specs.Clauses.{AreFollowing, FollowsFrom, IsUnsatisfiable};
ghost use Rattle.clauses.specs.Steps.Following.{AllButTrue, IsNarrowed, clauses_of};

use crate::assignment::Assignment;
use crate::literal::Literal;
use crate::reading::{Reading, is_any_true, read_clause};
use crate::step::Step;
use std::alloc::{AllocError, Global};

/// The clause with a number: of the formula, or of a step.
fn numbered<'a>(
    formula: &'a [Vec<Literal>],
    steps: &'a [Step],
    number: usize,
) -> Option<&'a Vec<Literal>>
    ensures { MatchOption result ⊤ (λ clause. Contains (clauses_of formula.now steps.now) clause.now) }
{
    match formula.get(number) {
        Some(clause) => Some(clause),
        None => {
            let step = steps.get(number - formula.len())?;
            Some(&step.clause)
        }
    }
}

/// Notes each literal of a clause as FALSE.
fn note_false(known: &mut Assignment, clause: &[Literal])
    ensures { IsNarrowed clause.now known.old known.new }
{
    for literal in clause {
        known.assign(literal.variable, literal.is_negated);
    }
}

/// Whether the hints lead from what is known to a clause of which each literal is FALSE.
fn leads_to_conflict(
    known: &mut Assignment,
    formula: &[Vec<Literal>],
    steps: &[Step],
    hints: &[usize],
) -> bool
    ensures { IsTrue result → AllButTrue (clauses_of formula.now steps.now) known.old }
{
    for hint in hints {
        let Some(clause) = numbered(formula, steps, *hint) else {
            return false;
        };
        match read_clause(known, clause.as_slice()) {
            Reading::Conflict => return true,
            Reading::Unit(literal) => known.assign(literal.variable, literal.wanted()),
            Reading::Open => return false,
        }
    }
    false
}

/// Whether the clause of a step follows, by its hints, from the formula and the steps before. One with a literal and its
/// negation is always TRUE.
fn is_followed(
    known: &mut Assignment,
    formula: &[Vec<Literal>],
    before: &[Step],
    step: &Step,
) -> bool
    ensures { IsTrue result → FollowsFrom (clauses_of formula.now before.now) step.now.clause.items }
{
    if !known.forget() {
        return false;
    }
    note_false(known, step.clause.as_slice());
    if is_any_true(known, step.clause.as_slice()) {
        return true;
    }
    leads_to_conflict(known, formula, before, step.hints.as_slice())
}

/// Whether the clause of each step follows from the formula, by its hints. Of variables whose number isn't below
/// `variables` nothing is ever known. The one fault is want of memory.
pub fn are_following(
    alloc: Global,
    variables: usize,
    formula: &[Vec<Literal>],
    steps: &[Step],
) -> Result<bool, AllocError>
    ensures { IfOk result (λ yes. IsTrue yes → AreFollowing formula.now steps.now) }
{
    let mut known = Assignment::new(alloc, variables)?;
    for (place, step) in steps.iter().enumerate() {
        if !is_followed(&mut known, formula, &steps[..place], step) {
            return Ok(false);
        }
    }
    Ok(true)
}

/// Whether the steps show that no values of the variables make all clauses of the formula TRUE: each follows, and the clause
/// of the last one has no literal.
pub fn is_refuted(
    alloc: Global,
    variables: usize,
    formula: &[Vec<Literal>],
    steps: &[Step],
) -> Result<bool, AllocError>
    ensures { IfOk result (λ yes. IsTrue yes → IsUnsatisfiable formula.now) }
{
    match steps.last() {
        Some(last) if last.clause.is_empty() => are_following(alloc, variables, formula, steps),
        _ => Ok(false),
    }
}
