use clauses::{Literal, Step};

/// Why a system is never bad: clauses that hold of each of its states. A literal's variable is the number of a state bit.
#[derive(Debug, Drop)]
pub struct Certificate {
    pub clauses: Vec<Vec<Literal>>,
    /// Steps from the formula of a step of the system.
    pub steps: Vec<Step>,
    /// For each clause of the next state, the number of the step that shows it.
    pub kept: Vec<usize>,
    /// The number of the step that shows that this one isn't bad.
    pub safe: usize,
}
