//! A solver of clauses that learns from conflicts: it finds values that make all clauses TRUE under assumptions, or clauses that
//! show that there are none. Nothing is believed of it: what it learns is noted in steps that `clauses` checks. In this
//! order: what is known of variables, the order of decisions, clauses that are watched, conflicts, the search.
#![tactic(auto)]

mod analysis;
mod decisions;
mod outcome;
mod search;
mod solver;
mod trail;
mod watching;

pub use outcome::Outcome;
pub use solver::{Notes, Solver};
