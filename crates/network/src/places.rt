//! Places by row and column, and those of the left rail.

pub mod number_row;
pub mod numbering;
pub mod rails;
