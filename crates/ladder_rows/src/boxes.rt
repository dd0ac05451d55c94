//! The boxes of a text.

pub mod box_rows;
pub mod box_test;
pub mod outline;
pub mod outlines;
pub mod row_numbers;
