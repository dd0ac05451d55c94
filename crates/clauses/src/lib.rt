//! Clauses over variables that are TRUE or FALSE, and refutations of them: whoever made one isn't believed, since each of
//! its steps is checked. In this order: literals, what is known of variables, what a clause tells, steps, refutations.
#![tactic(auto)]

mod assignment;
mod literal;
mod reading;
mod refuting;
mod step;

pub use literal::Literal;
pub use refuting::{are_following, is_refuted};
pub use step::Step;
