use clauses::Literal;
use std::alloc::{AllocError, Global};
use std::mem;

/// A clause of the solver, and its number for steps. Its first two literals are watched.
#[derive(Debug, Drop)]
pub(crate) struct Watched {
    pub(crate) literals: Vec<Literal>,
    pub(crate) number: usize,
}

/// A clause to be visited when a literal of it becomes FALSE, and another literal of it: where that is TRUE, it needn't be.
#[derive(Clone, Copy, Debug)]
pub(crate) struct Watch {
    pub(crate) clause: usize,
    pub(crate) other: Literal,
}

/// For each variable the clauses that watch it, and those that watch its negation.
#[derive(Drop)]
pub(crate) struct Watches {
    plain: Vec<Vec<Watch>>,
    negated: Vec<Vec<Watch>>,
}

impl Watches {
    /// None of no variables.
    pub(crate) fn new(alloc: Global) -> Watches {
        Watches {
            plain: Vec::new(alloc),
            negated: Vec::new(alloc),
        }
    }

    /// One more variable.
    pub(crate) fn add_variable(&mut self, alloc: Global) -> Result<(), AllocError> {
        self.plain.push(Vec::new(alloc))?;
        self.negated.push(Vec::new(alloc))?;
        Ok(())
    }

    /// Watches a literal.
    pub(crate) fn put(&mut self, literal: Literal, watch: Watch) -> Result<(), AllocError> {
        if literal.is_negated {
            put_in(&mut self.negated, literal.variable, watch)
        } else {
            put_in(&mut self.plain, literal.variable, watch)
        }
    }

    /// The watches of a literal, which are taken out.
    pub(crate) fn take(&mut self, alloc: Global, literal: Literal) -> Vec<Watch> {
        if literal.is_negated {
            exchange_in(&mut self.negated, literal.variable, Vec::new(alloc))
        } else {
            exchange_in(&mut self.plain, literal.variable, Vec::new(alloc))
        }
    }

    /// Puts the watches of a literal back.
    pub(crate) fn put_back(&mut self, literal: Literal, watches: Vec<Watch>) {
        if literal.is_negated {
            exchange_in(&mut self.negated, literal.variable, watches);
        } else {
            exchange_in(&mut self.plain, literal.variable, watches);
        }
    }
}

/// Puts a watch into the list of a variable.
fn put_in(lists: &mut Vec<Vec<Watch>>, variable: usize, watch: Watch) -> Result<(), AllocError> {
    if let Some(list) = lists.get_mut(variable) {
        list.push(watch)?;
    }
    Ok(())
}

/// Puts watches in the place of those of a variable, which it gives.
fn exchange_in(lists: &mut Vec<Vec<Watch>>, variable: usize, watches: Vec<Watch>) -> Vec<Watch> {
    match lists.get_mut(variable) {
        Some(list) => mem::replace(list, watches),
        None => watches,
    }
}
