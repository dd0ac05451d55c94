use clauses::Literal;

/// Why a variable has its value.
#[derive(Clone, Copy, Debug, PartialEq, Eq)]
pub(crate) enum Reason {
    /// It was decided.
    Decision,
    /// A clause leaves nothing else: its place among the solver's clauses.
    Clause(usize),
}

/// The value of a variable, and how it came by it.
#[derive(Clone, Copy, Debug)]
pub(crate) struct Known {
    pub(crate) value: bool,
    /// The number of decisions before it, with its own.
    pub(crate) level: usize,
    pub(crate) reason: Reason,
    /// Its place on the trail.
    pub(crate) place: usize,
}

/// What is known of variables, in the order in which it came to be.
#[derive(Drop)]
pub(crate) struct Trail {
    known: Vec<Option<Known>>,
    literals: Vec<Literal>,
    /// The lengths of the trail before each decision.
    levels: Vec<usize>,
    /// The place of the next literal whose watches are to be visited.
    next: usize,
}

impl Trail {
    /// Nothing is known of no variables.
    pub(crate) fn new(alloc: std::alloc::Global) -> Trail {
        Trail {
            known: Vec::new(alloc),
            literals: Vec::new(alloc),
            levels: Vec::new(alloc),
            next: 0,
        }
    }

    /// One more variable, of which nothing is known.
    pub(crate) fn add_variable(&mut self) -> Result<(), std::alloc::AllocError> {
        self.known.push(None)?;
        Ok(())
    }

    /// What is known of a variable.
    pub(crate) fn known(&self, variable: usize) -> Option<Known> {
        self.known.get(variable).copied().flatten()
    }

    /// The value of a literal.
    pub(crate) fn value(&self, literal: Literal) -> Option<bool> {
        match self.known(literal.variable) {
            Some(known) => Some(known.value != literal.is_negated),
            None => None,
        }
    }

    /// How many decisions there are.
    pub(crate) fn level(&self) -> usize {
        self.levels.len()
    }

    /// How many literals there are.
    pub(crate) fn len(&self) -> usize {
        self.literals.len()
    }

    /// The literal at a place.
    pub(crate) fn literal(&self, place: usize) -> Option<Literal> {
        self.literals.get(place).copied()
    }

    /// The literal whose watches are to be visited, which then counts as visited.
    pub(crate) fn take_next(&mut self) -> Option<Literal> {
        let literal = self.literals.get(self.next).copied()?;
        self.next = self.next.saturating_add(1);
        Some(literal)
    }

    /// Begins a new level.
    pub(crate) fn decide(&mut self) -> Result<(), std::alloc::AllocError> {
        self.levels.push(self.literals.len())?;
        Ok(())
    }

    /// A literal becomes TRUE.
    pub(crate) fn assign(
        &mut self,
        literal: Literal,
        reason: Reason,
    ) -> Result<(), std::alloc::AllocError> {
        let known = Known {
            value: !literal.is_negated,
            level: self.levels.len(),
            reason,
            place: self.literals.len(),
        };
        self.literals.push(literal)?;
        if let Some(slot) = self.known.get_mut(literal.variable) {
            *slot = Some(known);
        }
        Ok(())
    }

    /// Forgets the last literal if it is of a level above this one.
    pub(crate) fn undo(&mut self, level: usize) -> Option<Literal> {
        let kept = self.levels.get(level).copied()?;
        if self.literals.len() <= kept {
            self.levels.truncate(level);
            self.next = self.next.min(kept);
            return None;
        }
        let literal = self.literals.pop()?;
        if let Some(slot) = self.known.get_mut(literal.variable) {
            *slot = None;
        }
        Some(literal)
    }
}
