use clauses::Literal;
use gates::Signal;
use std::alloc::{AllocError, Global};

/// The literal that is TRUE where this one isn't.
pub(crate) fn opposite(literal: Literal) -> Literal {
    Literal {
        variable: literal.variable,
        is_negated: !literal.is_negated,
    }
}

/// Whether each literal of one cube is in another: so the other has no state that this one hasn't.
pub(crate) fn has_all(cube: &[Literal], part: &[Literal]) -> bool {
    part.len() <= cube.len() && part.iter().all(|literal| cube.contains(literal))
}

/// Whether a state is in a cube.
pub(crate) fn has_state(cube: &[Literal], state: &[bool]) -> bool {
    cube.iter().all(|literal| is_on(state, *literal))
}

/// A literal of a state.
fn is_on(state: &[bool], literal: Literal) -> bool {
    match state.get(literal.variable) {
        Some(bit) => *bit != literal.is_negated,
        None => false,
    }
}

/// The literal of the signal of a bit.
pub(crate) fn over(signals: &[Signal], literal: Literal) -> Option<Literal> {
    let signal = signals.get(literal.variable).copied()?;
    if literal.is_negated {
        Some(signal.negated().literal())
    } else {
        Some(signal.literal())
    }
}

/// The literals of the signals of bits.
pub(crate) fn all_over(
    alloc: Global,
    signals: &[Signal],
    cube: &[Literal],
) -> Result<Vec<Literal>, AllocError> {
    let mut literals = Vec::new(alloc);
    for literal in cube {
        if let Some(found) = over(signals, *literal) {
            literals.push(found)?;
        }
    }
    Ok(literals)
}

/// The signals of the bits of a cube.
pub(crate) fn signals_over(
    alloc: Global,
    signals: &[Signal],
    cube: &[Literal],
) -> Result<Vec<Signal>, AllocError> {
    let mut found = Vec::new(alloc);
    for literal in cube {
        if let Some(signal) = signals.get(literal.variable) {
            found.push(*signal)?;
        }
    }
    Ok(found)
}

/// A part of a cube that the first state isn't in: where it is, with a literal of the cube that the first state hasn't.
pub(crate) fn apart_from(
    first: &[bool],
    mut part: Vec<Literal>,
    cube: &[Literal],
) -> Result<Vec<Literal>, AllocError> {
    if !has_state(&part, first) {
        return Ok(part);
    }
    for literal in cube {
        if !is_on(first, *literal) {
            part.push(*literal)?;
            break;
        }
    }
    Ok(part)
}

/// The clause that says that a state isn't in a cube.
pub(crate) fn negation(alloc: Global, cube: &[Literal]) -> Result<Vec<Literal>, AllocError> {
    let mut clause = Vec::new(alloc);
    for literal in cube {
        clause.push(opposite(*literal))?;
    }
    Ok(clause)
}

/// A cube without the literal at a place.
pub(crate) fn without(
    alloc: Global,
    cube: &[Literal],
    place: usize,
) -> Result<Vec<Literal>, AllocError> {
    let mut rest = Vec::new(alloc);
    for (other, literal) in cube.iter().enumerate() {
        if other != place {
            rest.push(*literal)?;
        }
    }
    Ok(rest)
}
