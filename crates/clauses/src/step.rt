use crate::literal::Literal;

/// A step of a refutation: a clause, and why it follows. Where it is FALSE, the clauses that the hints number, one after the
/// other, leave one literal that must be TRUE each, and the last one none. The clauses of the formula are numbered from 0,
/// and behind them those of the steps before.
#[derive(Debug, Drop)]
pub struct Step {
    pub clause: Vec<Literal>,
    pub hints: Vec<usize>,
}
