use crate::outcome::Outcome;
use crate::solver::Solver;
use crate::trail::Reason;
use crate::watching::{Watch, Watched};
use clauses::Literal;
use std::alloc::AllocError;

/// How many conflicts there may be before the first restart.
const FIRST_RESTART: u64 = 100;

/// What to do next.
enum Next {
    /// Go on with what was decided.
    Decided,
    /// All variables that may be decided have values.
    Done,
    /// These assumptions can't be TRUE together.
    Refuted(Vec<Literal>),
}

impl Solver {
    /// Only these variables are decided from now on. Whoever calls it knows that values of them alone go on to all others.
    pub fn decide_only(&mut self, variables: &[usize]) -> Result<(), AllocError> {
        self.restart()?;
        self.decisions.limit(variables)
    }

    /// Searches for values that make all clauses and the assumptions TRUE, with at most so many conflicts and
    /// decisions. The values stay until a clause is added or another search begins.
    pub fn solve(&mut self, assumptions: &[Literal], effort: u64) -> Result<Outcome, AllocError> {
        self.restart()?;
        let mut until_restart = FIRST_RESTART;
        let mut allowed = FIRST_RESTART;
        for _ in 0..effort {
            if self.is_refuted {
                return Ok(Outcome::Refuted(Vec::new(self.alloc)));
            }
            if let Some(conflict) = self.propagate()? {
                self.learn(conflict)?;
                allowed = allowed.saturating_sub(1);
                if allowed == 0 {
                    until_restart = until_restart.saturating_add(until_restart / 4);
                    allowed = until_restart;
                    self.restart()?;
                }
                continue;
            }
            match self.decide(assumptions)? {
                Next::Decided => {}
                Next::Done => return Ok(Outcome::Satisfied),
                Next::Refuted(core) => return Ok(Outcome::Refuted(core)),
            }
        }
        Ok(Outcome::Ended)
    }

    /// Learns from a conflict, and goes back as far as the clause leaves a literal.
    fn learn(&mut self, conflict: usize) -> Result<(), AllocError> {
        self.conflicts = self.conflicts.saturating_add(1);
        if self.trail.level() == 0 {
            return self.refute(conflict);
        }
        let learned = self.analyze(conflict)?;
        let number = self.last_number();
        self.go_back(learned.level)?;
        self.decisions.age();
        let place = self.clauses.len();
        let first = learned.literals.first().copied();
        let second = learned.literals.get(1).copied();
        self.clauses.push(Watched {
            literals: learned.literals,
            number,
        })?;
        if let (Some(first), Some(second)) = (first, second) {
            self.watches.put(
                first,
                Watch {
                    clause: place,
                    other: second,
                },
            )?;
            self.watches.put(
                second,
                Watch {
                    clause: place,
                    other: first,
                },
            )?;
        }
        match first {
            Some(first) => self.assign(first, Reason::Clause(place)),
            None => Ok(()),
        }
    }

    /// Decides the next assumption that has no value, or else the most active variable.
    fn decide(&mut self, assumptions: &[Literal]) -> Result<Next, AllocError> {
        for _ in 0..assumptions.len() {
            let Some(assumption) = assumptions.get(self.trail.level()).copied() else {
                break;
            };
            match self.trail.value(assumption) {
                Some(true) => self.trail.decide()?,
                Some(false) => return Ok(Next::Refuted(self.analyze_assumption(assumption)?)),
                None => {
                    self.trail.decide()?;
                    self.assign(assumption, Reason::Decision)?;
                    return Ok(Next::Decided);
                }
            }
        }
        self.decide_variable()
    }

    /// Decides the most active variable that has no value, for the value that it had last.
    fn decide_variable(&mut self) -> Result<Next, AllocError> {
        for _ in 0..u64::MAX {
            let Some(variable) = self.decisions.take() else {
                break;
            };
            if self.trail.known(variable).is_none() {
                let literal = Literal {
                    variable,
                    is_negated: !self.decisions.last(variable),
                };
                self.trail.decide()?;
                self.assign(literal, Reason::Decision)?;
                return Ok(Next::Decided);
            }
        }
        Ok(Next::Done)
    }
}
