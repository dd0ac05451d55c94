//! What stands at each place of a text.

pub mod mark_tests;
pub mod marked_grid;
pub mod place_fault;
