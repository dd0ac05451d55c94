//! Elements between which state passes get one label.

pub mod labels;
pub mod links;
pub mod pairs;
pub mod row_table;
pub mod takers;
