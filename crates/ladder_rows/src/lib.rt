//! The rows of a drawing as characters, and the boxes that are drawn in them.
//!
//! [`rows_of`] makes rows of a text, [`Grid::new`] measures them, and [`Boxes::new`] finds their boxes. Rows and columns
//! count from 1: row 0 and column 0 are a blank margin.
#![tactic(auto)]

mod boxes;
mod characters;
mod laws;
mod span;

pub use boxes::box_rows::Boxes;
pub use boxes::box_test::BoxTest;
pub use boxes::outline::Outline;
pub use boxes::outlines::first_bad_box;
pub use characters::grid::Grid;
pub use characters::rows::{Row, first_not_ascii, rows_of};
pub use laws::{boxes_are_whole, first_is_by_rows, rows_are_within, runs_end};
pub use span::Span;
