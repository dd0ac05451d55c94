//! The faults of a drawing's names, and names declared by their use.
#![tactic(auto)]

mod bind_fault;
mod box_faults;
mod element_faults;
mod finding;
mod first_fault;
mod guess;
mod kinds;
mod literal;
mod name_use;
mod names;

pub use bind_fault::{BindFault, BindKind};
pub use guess::Guess;
pub use literal::literal_value;
pub use names::parts;
