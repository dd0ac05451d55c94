//! The book: evaluations in an order in which each one fits those before it.
#![tactic(auto)]

mod book;
mod laws;
mod present;

pub use book::{Book, Misfit};
pub use laws::takes_never_fall;
pub use present::raise_present;
