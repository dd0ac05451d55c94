//! The text as rows of characters.

pub mod grid;
pub mod rows;
