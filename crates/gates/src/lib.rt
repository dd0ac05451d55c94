//! AND gates over inputs, and signals that may be negated: built one by one, one gate for equal ones; what each is under
//! inputs; and clauses that say so. In this order: signals, gates, what is built of them, their order, values, clauses.
#![tactic(auto)]

mod ands;
mod building;
mod gate_clauses;
mod gates;
mod order;
mod signal;
mod values;

pub use gates::{Gate, Gates};
pub use signal::Signal;
pub use values::value_in;
