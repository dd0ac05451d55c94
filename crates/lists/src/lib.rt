//! Lists compared item by item, lemmas on lists that several crates need, and the words that they are said in.
#![tactic(auto)]

mod equal;
mod same;

pub use equal::{are_same_bits, are_same_numbers, are_same_positions};
pub use same::are_same;
