use crate::solver::{Solver, opposite};
use crate::trail::Reason;
use clauses::{Literal, Step};
use std::alloc::AllocError;

/// What was learned from a conflict: a clause, its first literal the one that it leaves at the level to go back to.
#[derive(Debug, Drop)]
pub(crate) struct Learned {
    pub(crate) literals: Vec<Literal>,
    pub(crate) level: usize,
}

/// What an analysis goes over: the literals of the clause to be learned, and the variables whose reasons it rests on.
#[derive(Drop)]
struct Analysis {
    literals: Vec<Literal>,
    /// How many met variables of the last level aren't resolved yet.
    open: usize,
    /// Variables whose reasons were resolved, by their places on the trail.
    resolved: Vec<usize>,
    /// Variables that are known at level 0.
    units: Vec<usize>,
    /// All variables that were met.
    met: Vec<usize>,
}

impl Solver {
    fn new_analysis(&self) -> Analysis {
        Analysis {
            literals: Vec::new(self.alloc),
            open: 0,
            resolved: Vec::new(self.alloc),
            units: Vec::new(self.alloc),
            met: Vec::new(self.alloc),
        }
    }

    /// Whether an analysis has met a variable.
    fn is_seen(&self, variable: usize) -> bool {
        self.seen.get(variable).copied().unwrap_or(false)
    }

    fn set_seen(&mut self, variable: usize, seen: bool) {
        if let Some(slot) = self.seen.get_mut(variable) {
            *slot = seen;
        }
    }

    /// Meets the literals of a clause.
    fn meet_clause(&mut self, analysis: &mut Analysis, clause: usize) -> Result<(), AllocError> {
        let len = match self.clauses.get(clause) {
            Some(watched) => watched.literals.len(),
            None => 0,
        };
        for place in 0..len {
            let Some(watched) = self.clauses.get(clause) else {
                break;
            };
            let Some(literal) = watched.literals.get(place).copied() else {
                break;
            };
            self.meet(analysis, literal)?;
        }
        Ok(())
    }

    /// Meets a literal that is FALSE.
    fn meet(&mut self, analysis: &mut Analysis, literal: Literal) -> Result<(), AllocError> {
        let variable = literal.variable;
        if self.is_seen(variable) {
            return Ok(());
        }
        let Some(known) = self.trail.known(variable) else {
            return Ok(());
        };
        self.set_seen(variable, true);
        analysis.met.push(variable)?;
        if known.level == 0 {
            analysis.units.push(variable)?;
            return Ok(());
        }
        self.decisions.bump(variable);
        if known.level >= self.trail.level() {
            analysis.open = analysis.open.saturating_add(1);
        } else {
            analysis.literals.push(literal)?;
        }
        Ok(())
    }

    /// The place on the trail, below this one, of the last literal whose variable was met.
    fn last_met(&self, below: usize) -> Option<usize> {
        let mut place = below;
        for _ in 0..u64::MAX {
            place = place.checked_sub(1)?;
            let literal = self.trail.literal(place)?;
            if self.is_seen(literal.variable) {
                return Some(place);
            }
        }
        None
    }

    /// Learns a clause from a conflict: by resolution down to the one literal of the last level that all of it follows from.
    pub(crate) fn analyze(&mut self, conflict: usize) -> Result<Learned, AllocError> {
        let mut analysis = self.new_analysis();
        let mut place = self.trail.len();
        let mut clause = conflict;
        let mut first = None;
        for _ in 0..u64::MAX {
            self.meet_clause(&mut analysis, clause)?;
            let Some(next) = self.last_met(place) else {
                break;
            };
            place = next;
            let Some(literal) = self.trail.literal(place) else {
                break;
            };
            analysis.open = analysis.open.saturating_sub(1);
            if analysis.open == 0 {
                first = Some(opposite(literal));
                break;
            }
            match self.trail.known(literal.variable) {
                Some(known) => match known.reason {
                    Reason::Clause(reason) => {
                        analysis.resolved.push(place)?;
                        clause = reason;
                    }
                    Reason::Decision => break,
                },
                None => break,
            }
        }
        self.finish(analysis, conflict, first)
    }

    /// Drops the literals that follow from the others, notes the step, and orders what is learned.
    fn finish(
        &mut self,
        mut analysis: Analysis,
        conflict: usize,
        first: Option<Literal>,
    ) -> Result<Learned, AllocError> {
        self.drop_implied(&mut analysis)?;
        let mut literals = Vec::new(self.alloc);
        if let Some(first) = first {
            literals.push(first)?;
        }
        literals.extend_from_slice(&analysis.literals)?;
        let level = self.put_last_second(&mut literals);
        if self.keeps_notes() {
            let mut clause = Vec::new(self.alloc);
            clause.extend_from_slice(&literals)?;
            self.note(&analysis, clause, Some(conflict))?;
        }
        self.forget_met(&analysis);
        Ok(Learned { literals, level })
    }

    /// Forgets what an analysis has met.
    fn forget_met(&mut self, analysis: &Analysis) {
        for variable in &analysis.met {
            self.set_seen(*variable, false);
        }
    }

    /// The clause of which each other literal is one that was met or is known at level 0, if the literal has such a reason.
    fn implying(&self, literal: Literal) -> Option<usize> {
        let known = self.trail.known(literal.variable)?;
        let Reason::Clause(clause) = known.reason else {
            return None;
        };
        let watched = self.clauses.get(clause)?;
        for other in &watched.literals {
            if other.variable != literal.variable
                && !self.is_seen(other.variable)
                && self.is_above_zero(*other)
            {
                return None;
            }
        }
        Some(clause)
    }

    /// Whether a variable is known, and not at level 0.
    fn is_above_zero(&self, literal: Literal) -> bool {
        match self.trail.known(literal.variable) {
            Some(known) => known.level > 0,
            None => true,
        }
    }

    /// Drops the literals that are FALSE where the others are.
    fn drop_implied(&mut self, analysis: &mut Analysis) -> Result<(), AllocError> {
        let mut kept = 0usize;
        for index in 0..analysis.literals.len() {
            let Some(literal) = analysis.literals.get(index).copied() else {
                break;
            };
            match self.implying(literal) {
                Some(clause) => self.rest_on(analysis, literal, clause)?,
                None => {
                    if let Some(slot) = analysis.literals.get_mut(kept) {
                        *slot = literal;
                    }
                    kept = kept.saturating_add(1);
                }
            }
        }
        analysis.literals.truncate(kept);
        Ok(())
    }

    /// Notes that the clause to be learned rests on the reason of a literal, and on what that knows at level 0.
    fn rest_on(
        &mut self,
        analysis: &mut Analysis,
        literal: Literal,
        clause: usize,
    ) -> Result<(), AllocError> {
        if let Some(known) = self.trail.known(literal.variable) {
            analysis.resolved.push(known.place)?;
        }
        self.meet_units(analysis, clause)
    }

    /// Meets the literals of a clause that are known at level 0.
    fn meet_units(&mut self, analysis: &mut Analysis, clause: usize) -> Result<(), AllocError> {
        let len = match self.clauses.get(clause) {
            Some(watched) => watched.literals.len(),
            None => 0,
        };
        for place in 0..len {
            let Some(watched) = self.clauses.get(clause) else {
                break;
            };
            let Some(literal) = watched.literals.get(place).copied() else {
                break;
            };
            if !self.is_above_zero(literal) {
                self.meet(analysis, literal)?;
            }
        }
        Ok(())
    }

    /// Puts a literal of the last level but one into the second place: that level.
    fn put_last_second(&self, literals: &mut Vec<Literal>) -> usize {
        let mut level = 0;
        let mut last = 1;
        for place in 1..literals.len() {
            let Some(literal) = literals.get(place) else {
                break;
            };
            if let Some(known) = self.trail.known(literal.variable) {
                if known.level > level {
                    level = known.level;
                    last = place;
                }
            }
        }
        if 1 < literals.len() && last < literals.len() {
            literals.swap(1, last);
        }
        level
    }

    /// The number of a clause for steps.
    fn number_of(&self, clause: usize) -> Option<usize> {
        let watched = self.clauses.get(clause)?;
        Some(watched.number)
    }

    /// Notes a step: its hints are the clauses of one literal that it rests on, then reasons in the order in which they
    /// came, and the conflict.
    fn note(
        &mut self,
        analysis: &Analysis,
        clause: Vec<Literal>,
        conflict: Option<usize>,
    ) -> Result<(), AllocError> {
        let mut hints = Vec::new(self.alloc);
        for variable in &analysis.units {
            if let Some(number) = self.units.get(*variable).copied().flatten() {
                hints.push(number)?;
            }
        }
        let mut places = Vec::new(self.alloc);
        places.extend_from_slice(&analysis.resolved)?;
        places.sort()?;
        places.dedup();
        for place in &places {
            if let Some(number) = self.number_of_reason(*place) {
                hints.push(number)?;
            }
        }
        if let Some(conflict) = conflict {
            if let Some(number) = self.number_of(conflict) {
                hints.push(number)?;
            }
        }
        self.steps.push(Step { clause, hints })?;
        Ok(())
    }

    /// The number of the reason of the literal at a place of the trail.
    fn number_of_reason(&self, place: usize) -> Option<usize> {
        let literal = self.trail.literal(place)?;
        let known = self.trail.known(literal.variable)?;
        match known.reason {
            Reason::Clause(clause) => self.number_of(clause),
            Reason::Decision => None,
        }
    }

    /// The number of the last step.
    pub(crate) fn last_number(&self) -> usize {
        self.next_number().saturating_sub(1)
    }

    /// Notes the clause of one literal that shows what came to be known at level 0.
    pub(crate) fn note_unit(&mut self, literal: Literal, clause: usize) -> Result<(), AllocError> {
        if !self.keeps_notes() {
            return Ok(());
        }
        let is_unit = match self.clauses.get(clause) {
            Some(watched) => watched.literals.len() == 1,
            None => false,
        };
        let number = if is_unit {
            self.number_of(clause)
        } else {
            let mut analysis = self.new_analysis();
            self.set_seen(literal.variable, true);
            analysis.met.push(literal.variable)?;
            self.meet_units(&mut analysis, clause)?;
            self.note(&analysis, vec![in self.alloc; literal]?, Some(clause))?;
            self.forget_met(&analysis);
            Some(self.last_number())
        };
        if let Some(slot) = self.units.get_mut(literal.variable) {
            *slot = number;
        }
        Ok(())
    }

    /// A clause is FALSE at level 0: there are no values at all.
    pub(crate) fn refute(&mut self, clause: usize) -> Result<(), AllocError> {
        if self.is_refuted {
            return Ok(());
        }
        self.is_refuted = true;
        self.shown_by = self.next_number();
        if self.keeps_notes() {
            let mut analysis = self.new_analysis();
            self.meet_units(&mut analysis, clause)?;
            let empty = Vec::new(self.alloc);
            self.note(&analysis, empty, Some(clause))?;
            self.forget_met(&analysis);
        }
        Ok(())
    }

    /// The assumptions that make an assumption FALSE, with it: they can't be TRUE together. That is noted as a step.
    pub(crate) fn analyze_assumption(
        &mut self,
        assumption: Literal,
    ) -> Result<Vec<Literal>, AllocError> {
        let mut analysis = self.new_analysis();
        let mut core = vec![in self.alloc; assumption]?;
        self.meet_lower(&mut analysis, opposite(assumption))?;
        let mut place = self.trail.len();
        for _ in 0..u64::MAX {
            let Some(next) = self.last_met(place) else {
                break;
            };
            place = next;
            let Some(literal) = self.trail.literal(place) else {
                break;
            };
            let Some(known) = self.trail.known(literal.variable) else {
                break;
            };
            if known.level == 0 {
                continue;
            }
            match known.reason {
                Reason::Decision => core.push(literal)?,
                Reason::Clause(clause) => {
                    analysis.resolved.push(place)?;
                    self.meet_lower_clause(&mut analysis, clause)?;
                }
            }
        }
        if self.keeps_notes() {
            let mut clause = Vec::new(self.alloc);
            for literal in &core {
                clause.push(opposite(*literal))?;
            }
            self.note(&analysis, clause, None)?;
            self.shown_by = self.last_number();
        }
        self.forget_met(&analysis);
        Ok(core)
    }

    /// Meets a literal, whatever its level is.
    fn meet_lower(&mut self, analysis: &mut Analysis, literal: Literal) -> Result<(), AllocError> {
        let variable = literal.variable;
        if self.is_seen(variable) {
            return Ok(());
        }
        let Some(known) = self.trail.known(variable) else {
            return Ok(());
        };
        self.set_seen(variable, true);
        analysis.met.push(variable)?;
        if known.level == 0 {
            analysis.units.push(variable)?;
        }
        Ok(())
    }

    /// Meets the literals of a clause, whatever their levels are.
    fn meet_lower_clause(
        &mut self,
        analysis: &mut Analysis,
        clause: usize,
    ) -> Result<(), AllocError> {
        let len = match self.clauses.get(clause) {
            Some(watched) => watched.literals.len(),
            None => 0,
        };
        for place in 0..len {
            let Some(watched) = self.clauses.get(clause) else {
                break;
            };
            let Some(literal) = watched.literals.get(place).copied() else {
                break;
            };
            self.meet_lower(analysis, literal)?;
        }
        Ok(())
    }
}
