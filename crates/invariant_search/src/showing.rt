use crate::cubes::negation;
use clause_solver::{Notes, Outcome, Solver};
use clauses::{Literal, Step};
use gates::Signal;
use std::alloc::{AllocError, Global};
use transition_systems::{CertificateFault, TransitionSystem, clause_over, formula_of};

/// How many conflicts and decisions one clause may take.
const CLAUSE_EFFORT: u64 = 100_000_000;

/// Steps from a formula, and which of them show clauses of the next state, and that this one isn't bad.
#[derive(Debug, Drop)]
pub(crate) struct Shown {
    pub(crate) steps: Vec<Step>,
    pub(crate) kept: Vec<usize>,
    pub(crate) safe: usize,
    /// How many clauses the formula has.
    pub(crate) formula: usize,
}

/// A solver with the formula of a step of the system, which keeps notes.
fn solver_of(
    alloc: Global,
    system: &TransitionSystem,
    formula: &[Vec<Literal>],
) -> Result<Solver, AllocError> {
    let mut solver = Solver::new(alloc, Notes::Behind(formula.len()));
    for _ in system.gates.gates() {
        solver.add_variable()?;
    }
    for clause in formula {
        solver.add_clause(clause)?;
    }
    Ok(solver)
}

/// Shows a clause: the place of its step.
fn show(
    alloc: Global,
    solver: &mut Solver,
    clause: Vec<Literal>,
) -> Result<Option<usize>, AllocError> {
    let assumptions = negation(alloc, &clause)?;
    match solver.solve(&assumptions, CLAUSE_EFFORT)? {
        Outcome::Refuted(_) => Ok(Some(solver.note_last(clause)?)),
        _ => Ok(None),
    }
}

/// Puts the place of a step at the end.
fn put_place(places: &mut Vec<usize>, place: usize) -> Result<(), AllocError> {
    places.push(place)?;
    Ok(())
}

/// Shows that clauses hold of the next state: the places of the steps.
fn show_kept(
    alloc: Global,
    system: &TransitionSystem,
    solver: &mut Solver,
    kept: &[Vec<Literal>],
) -> Result<Vec<usize>, CertificateFault> {
    let mut places = Vec::new(alloc);
    for clause in kept {
        let next = clause_over(alloc, &system.next, clause)?;
        let Some(place) = show(alloc, solver, next)? else {
            return Err(CertificateFault::NotKept);
        };
        put_place(&mut places, place)?;
    }
    Ok(places)
}

/// The clause of one signal.
fn clause_of(alloc: Global, signal: Signal) -> Result<Vec<Literal>, AllocError> {
    let is = signal.literal();
    let clause = vec![in alloc; is]?;
    Ok(clause)
}

/// Shows that a state isn't bad: the place of the step.
fn show_safe(
    alloc: Global,
    system: &TransitionSystem,
    solver: &mut Solver,
) -> Result<usize, CertificateFault> {
    let is_not_bad = clause_of(alloc, system.bad.negated())?;
    match show(alloc, solver, is_not_bad)? {
        Some(place) => Ok(place),
        None => Err(CertificateFault::NotSafe),
    }
}

/// Shows that where some clauses hold, a state isn't bad, and others hold of the next one.
pub(crate) fn show_step(
    alloc: Global,
    system: &TransitionSystem,
    clauses: &[Vec<Literal>],
    kept: &[Vec<Literal>],
) -> Result<Shown, CertificateFault> {
    let formula = formula_of(alloc, system, clauses)?;
    let mut solver = solver_of(alloc, system, &formula)?;
    let kept = show_kept(alloc, system, &mut solver, kept)?;
    let safe = show_safe(alloc, system, &mut solver)?;
    Ok(Shown {
        steps: solver.into_steps(),
        kept,
        safe,
        formula: formula.len(),
    })
}
