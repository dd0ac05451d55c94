use crate::decisions::Decisions;
use crate::trail::{Reason, Trail};
use crate::watching::{Watch, Watched, Watches};
use clauses::{Literal, Step};
use std::alloc::{AllocError, Global};

/// Whether a solver notes how it comes by what it learns.
#[derive(Clone, Copy, Debug, PartialEq, Eq)]
pub enum Notes {
    /// In steps behind the formula, which has so many clauses.
    Behind(usize),
    None,
}

/// Clauses, what is known of their variables, and what was learned.
#[derive(Drop)]
pub struct Solver {
    pub(crate) alloc: Global,
    pub(crate) clauses: Vec<Watched>,
    pub(crate) watches: Watches,
    pub(crate) trail: Trail,
    pub(crate) decisions: Decisions,
    pub(crate) notes: Notes,
    /// How many clauses of the formula were added.
    pub(crate) added: usize,
    pub(crate) steps: Vec<Step>,
    /// The number of the clause of one literal that shows what is known of a variable at level 0.
    pub(crate) units: Vec<Option<usize>>,
    /// The variables that an analysis has met.
    pub(crate) seen: Vec<bool>,
    pub(crate) is_refuted: bool,
    /// The number of the clause that shows what was refuted last.
    pub(crate) shown_by: usize,
    /// How many conflicts there were.
    pub(crate) conflicts: u64,
}

/// What becomes of a watch that is visited.
enum Visit {
    Kept(Literal),
    Moved,
    Conflict,
}

impl Solver {
    /// No variables, and no clauses.
    pub fn new(alloc: Global, notes: Notes) -> Solver {
        Solver {
            alloc,
            clauses: Vec::new(alloc),
            watches: Watches::new(alloc),
            trail: Trail::new(alloc),
            decisions: Decisions::new(alloc),
            notes,
            added: 0,
            steps: Vec::new(alloc),
            units: Vec::new(alloc),
            seen: Vec::new(alloc),
            is_refuted: false,
            shown_by: 0,
            conflicts: 0,
        }
    }

    /// How many variables there are.
    pub fn variables(&self) -> usize {
        self.seen.len()
    }

    /// One more variable: its number.
    pub fn add_variable(&mut self) -> Result<usize, AllocError> {
        let variable = self.seen.len();
        self.trail.add_variable()?;
        self.decisions.add_variable()?;
        self.watches.add_variable(self.alloc)?;
        self.units.push(None)?;
        self.seen.push(false)?;
        Ok(variable)
    }

    /// The value that a literal has.
    pub fn value(&self, literal: Literal) -> Option<bool> {
        self.trail.value(literal)
    }

    /// The steps that were noted, which are taken out.
    pub fn into_steps(self) -> Vec<Step> {
        self.steps
    }

    /// Notes a clause that follows from what was refuted last, as it has each literal of the clause that shows that: its place
    /// among the steps.
    pub fn note_last(&mut self, clause: Vec<Literal>) -> Result<usize, AllocError> {
        let place = self.steps.len();
        let hints = vec![in self.alloc; self.shown_by]?;
        self.steps.push(Step { clause, hints })?;
        Ok(place)
    }

    /// Whether it notes steps.
    pub(crate) fn keeps_notes(&self) -> bool {
        matches!(self.notes, Notes::Behind(_))
    }

    /// The number of the next step.
    pub(crate) fn next_number(&self) -> usize {
        match self.notes {
            Notes::Behind(formula) => formula.saturating_add(self.steps.len()),
            Notes::None => 0,
        }
    }

    /// Forgets all decisions.
    pub fn restart(&mut self) -> Result<(), AllocError> {
        self.go_back(0)
    }

    /// Adds a clause of the formula. All decisions are forgotten.
    pub fn add_clause(&mut self, literals: &[Literal]) -> Result<(), AllocError> {
        self.restart()?;
        let number = self.added;
        self.added = self.added.saturating_add(1);
        let mut clause = Vec::new(self.alloc);
        for literal in literals {
            if self.trail.value(*literal) == Some(true) {
                return Ok(());
            }
            if clause.contains(literal) {
                continue;
            }
            if clause.contains(&opposite(*literal)) {
                return Ok(());
            }
            clause.push(*literal)?;
        }
        self.attach(clause, number)
    }

    /// Attaches a clause at level 0.
    pub(crate) fn attach(
        &mut self,
        mut clause: Vec<Literal>,
        number: usize,
    ) -> Result<(), AllocError> {
        self.put_open_first(&mut clause);
        let place = self.clauses.len();
        let first = clause.first().copied();
        let second = clause.get(1).copied();
        self.clauses.push(Watched {
            literals: clause,
            number,
        })?;
        let Some(first) = first else {
            return self.refute(place);
        };
        let Some(second) = second else {
            return self.attach_unit(place, first);
        };
        self.watches.put(
            first,
            Watch {
                clause: place,
                other: second,
            },
        )?;
        self.watches.put(
            second,
            Watch {
                clause: place,
                other: first,
            },
        )?;
        match (self.trail.value(first), self.trail.value(second)) {
            (Some(false), _) => self.refute(place),
            (None, Some(false)) => self.assign(first, Reason::Clause(place)),
            _ => Ok(()),
        }
    }

    /// Attaches a clause of one literal at level 0.
    fn attach_unit(&mut self, place: usize, literal: Literal) -> Result<(), AllocError> {
        match self.trail.value(literal) {
            Some(true) => Ok(()),
            Some(false) => self.refute(place),
            None => self.assign(literal, Reason::Clause(place)),
        }
    }

    /// Puts literals that aren't FALSE into the first two places.
    fn put_open_first(&self, clause: &mut Vec<Literal>) {
        let mut open = 0usize;
        for place in 0..clause.len() {
            if open >= 2 {
                return;
            }
            let Some(literal) = clause.get(place).copied() else {
                return;
            };
            if self.trail.value(literal) != Some(false) && open < clause.len() {
                clause.swap(open, place);
                open += 1;
            }
        }
    }

    /// A literal becomes TRUE. At level 0 the clause that shows it is noted.
    pub(crate) fn assign(&mut self, literal: Literal, reason: Reason) -> Result<(), AllocError> {
        self.trail.assign(literal, reason)?;
        match reason {
            Reason::Clause(clause) if self.trail.level() == 0 => self.note_unit(literal, clause),
            _ => Ok(()),
        }
    }

    /// Forgets what came to be known at levels above this one.
    pub(crate) fn go_back(&mut self, level: usize) -> Result<(), AllocError> {
        for _ in 0..u64::MAX {
            let Some(literal) = self.trail.undo(level) else {
                break;
            };
            self.decisions.free(literal.variable, !literal.is_negated)?;
        }
        Ok(())
    }

    /// Visits the watches of all that became FALSE. The place of a clause of which each literal is FALSE, if there is one.
    pub(crate) fn propagate(&mut self) -> Result<Option<usize>, AllocError> {
        for _ in 0..u64::MAX {
            let Some(literal) = self.trail.take_next() else {
                break;
            };
            let conflict = self.visit_all(opposite(literal))?;
            if conflict.is_some() {
                return Ok(conflict);
            }
        }
        Ok(None)
    }

    /// Visits the watches of a literal that became FALSE.
    fn visit_all(&mut self, falsified: Literal) -> Result<Option<usize>, AllocError> {
        let mut watches = self.watches.take(self.alloc, falsified);
        let mut kept = 0usize;
        let mut conflict = None;
        for place in 0..watches.len() {
            let Some(watch) = watches.get(place).copied() else {
                break;
            };
            let other = match conflict {
                Some(_) => Some(watch.other),
                None => match self.visit(watch, falsified)? {
                    Visit::Kept(other) => Some(other),
                    Visit::Moved => None,
                    Visit::Conflict => {
                        conflict = Some(watch.clause);
                        Some(watch.other)
                    }
                },
            };
            if let Some(other) = other {
                if let Some(slot) = watches.get_mut(kept) {
                    *slot = Watch {
                        clause: watch.clause,
                        other,
                    };
                }
                kept = kept.saturating_add(1);
            }
        }
        watches.truncate(kept);
        self.watches.put_back(falsified, watches);
        Ok(conflict)
    }

    /// Visits a clause of which a watched literal became FALSE.
    fn visit(&mut self, watch: Watch, falsified: Literal) -> Result<Visit, AllocError> {
        if self.trail.value(watch.other) == Some(true) {
            return Ok(Visit::Kept(watch.other));
        }
        let Some(first) = self.first_other(watch.clause, falsified) else {
            return Ok(Visit::Moved);
        };
        if self.trail.value(first) == Some(true) {
            return Ok(Visit::Kept(first));
        }
        if let Some(literal) = self.rewatch(watch.clause) {
            let moved = Watch {
                clause: watch.clause,
                other: first,
            };
            self.watches.put(literal, moved)?;
            return Ok(Visit::Moved);
        }
        if self.trail.value(first) == Some(false) {
            return Ok(Visit::Conflict);
        }
        self.assign(first, Reason::Clause(watch.clause))?;
        Ok(Visit::Kept(first))
    }

    /// Puts the watched literal that became FALSE into the second place of its clause; the one in the first place.
    fn first_other(&mut self, clause: usize, falsified: Literal) -> Option<Literal> {
        let watched = self.clauses.get_mut(clause)?;
        if watched.literals.len() < 2 {
            return None;
        }
        if watched.literals.first().copied()? == falsified {
            watched.literals.swap(0, 1);
        }
        watched.literals.first().copied()
    }

    /// Puts another literal that isn't FALSE into the second place of a clause, if there is one.
    fn rewatch(&mut self, clause: usize) -> Option<Literal> {
        let watched = self.clauses.get_mut(clause)?;
        for place in 2..watched.literals.len() {
            let literal = watched.literals.get(place).copied()?;
            if self.trail.value(literal) != Some(false) {
                if place < watched.literals.len() {
                    watched.literals.swap(1, place);
                }
                return Some(literal);
            }
        }
        None
    }
}

/// The literal that is TRUE where this one isn't.
pub(crate) fn opposite(literal: Literal) -> Literal {
    Literal {
        variable: literal.variable,
        is_negated: !literal.is_negated,
    }
}
