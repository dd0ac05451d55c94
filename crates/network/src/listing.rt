//! Elements of a drawing in a list.

pub mod copies;
pub mod elements;
pub mod listed;
pub mod symbol_rows;
pub mod symbols;
