ghost use Rattle.std.specs.Prelude.{◌≡◌, Some, IfOk, slice_set, true};
ghost use Rattle.clauses.specs.Steps.Assignments.{AreUnknown, value_in};

use std::alloc::{AllocError, Global};
use std::marker::Model;

/// A value of a variable, and in which round it was assigned.
#[derive(Clone, Copy, Debug)]
struct Assigned {
    round: u64,
    value: bool,
}

/// What is known of variables in this round.
#[derive(Drop)]
pub(crate) struct Assignment {
    round: u64,
    assigned: Vec<Assigned>,
}

impl Model for Assignment {
    ghost use Rattle.std.specs.Prelude.{Bool, List, Option};
    ghost use Rattle.clauses.specs.Steps.Assignments.{AreOfRounds, known};

    ghost Value = { List (Option Bool) };

    ghost view = { λ a. known a.round a.assigned.items };

    ghost invariant = { λ a. AreOfRounds a.round a.assigned.items };
}

impl Assignment {
    /// Of so many variables nothing is known.
    pub(crate) fn new(alloc: Global, variables: usize) -> Result<Assignment, AllocError>
        ensures { IfOk result AreUnknown }
    {
        let nothing = Assigned {
            round: 0,
            value: false,
        };
        let assigned = vec![in alloc; nothing; variables]?;
        Ok(Assignment { round: 1, assigned })
    }

    /// Forgets all that is known; false, where no round is left.
    pub(crate) fn forget(&mut self) -> bool
        ensures { result ≡ true → AreUnknown self.new }
    {
        match self.round.checked_add(1) {
            Some(next) => {
                self.round = next;
                true
            }
            None => false,
        }
    }

    /// What is known of a variable.
    pub(crate) fn value(&self, variable: usize) -> Option<bool>
        ensures { result ≡ value_in self.now variable }
    {
        match self.assigned.get(variable) {
            Some(assigned) if assigned.round == self.round => Some(assigned.value),
            _ => None,
        }
    }

    /// Assigns a value to a variable; one beyond the last isn't noted.
    pub(crate) fn assign(&mut self, variable: usize, value: bool)
        ensures { self.new ≡ slice_set self.old variable (Some value) }
    {
        let round = self.round;
        if let Some(assigned) = self.assigned.get_mut(variable) {
            *assigned = Assigned { round, value };
        }
    }
}
