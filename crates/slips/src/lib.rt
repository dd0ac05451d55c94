//! Slips in the rows of a drawing: words, boxes and comments that are written as elsewhere, and which rows belong together.
#![tactic(auto)]

mod block_names;
mod broken_row;
mod comment_sign;
mod pins;
mod rows;
mod rung;
mod wrong_form;

pub use block_names::{push_word, told_of_block};
pub use broken_row::{Break, Broken, broken_at, broken_in};
pub use comment_sign::{told_of_comment, told_of_comments};
pub use pins::{before_a_dot, told_of_pins, told_of_pins_in};
pub use rows::{row_at, rows_of, sign_at};
pub use rung::{Part, rail_of, rung_of};
pub use wrong_form::{told_of_form, told_of_forms};
