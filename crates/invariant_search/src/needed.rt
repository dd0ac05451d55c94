use crate::showing::Shown;
use clauses::{Literal, Step};
use std::alloc::{AllocError, Global};

/// Marks a number.
fn mark(marks: &mut [bool], number: usize) {
    if let Some(mark) = marks.get_mut(number) {
        *mark = true;
    }
}

/// Whether a number is marked.
fn is_marked(marks: &[bool], number: usize) -> bool {
    marks.get(number).copied().unwrap_or(false)
}

/// Marks the clauses that a step rests on.
fn mark_hints(marks: &mut [bool], step: &Step) {
    for hint in &step.hints {
        mark(marks, *hint);
    }
}

/// Marks what marked steps behind a formula rest on.
fn mark_below(marks: &mut [bool], formula: usize, steps: &[Step]) {
    let mut place = steps.len();
    for _ in 0..steps.len() {
        place = place.saturating_sub(1);
        if let Some(step) = steps.get(place) {
            if is_marked(marks, formula.saturating_add(place)) {
                mark_hints(marks, step);
            }
        }
    }
}

/// Which of so many clauses, which stand before the last of a formula, the steps that show something rest on.
pub(crate) fn needed_by(
    alloc: Global,
    shown: &Shown,
    clauses: usize,
) -> Result<Vec<bool>, AllocError> {
    let formula = shown.formula;
    let mut marks = vec![in alloc; false; formula.saturating_add(shown.steps.len())]?;
    mark(&mut marks, formula.saturating_add(shown.safe));
    for place in &shown.kept {
        mark(&mut marks, formula.saturating_add(*place));
    }
    mark_below(&mut marks, formula, &shown.steps);
    let first = formula.saturating_sub(clauses.saturating_add(1));
    let mut needed = Vec::new(alloc);
    for place in 0..clauses {
        needed.push(is_marked(&marks, first.saturating_add(place)))?;
    }
    Ok(needed)
}

/// Marks those of clauses that are among others.
pub(crate) fn mark_equal(clauses: &[Vec<Literal>], others: &[Vec<Literal>], marks: &mut [bool]) {
    for (place, clause) in clauses.iter().enumerate() {
        if others
            .iter()
            .any(|other| other.as_slice() == clause.as_slice())
        {
            mark(marks, place);
        }
    }
}

/// The marked ones of clauses.
pub(crate) fn marked(
    alloc: Global,
    clauses: &[Vec<Literal>],
    marks: &[bool],
) -> Result<Vec<Vec<Literal>>, AllocError> {
    let mut found = Vec::new(alloc);
    for (place, clause) in clauses.iter().enumerate() {
        if is_marked(marks, place) {
            found.push(Vec::from_slice(alloc, clause)?)?;
        }
    }
    Ok(found)
}

/// Copies of clauses.
pub(crate) fn copied(
    alloc: Global,
    clauses: &[Vec<Literal>],
) -> Result<Vec<Vec<Literal>>, AllocError> {
    let mut found = Vec::new(alloc);
    for clause in clauses {
        found.push(Vec::from_slice(alloc, clause)?)?;
    }
    Ok(found)
}
