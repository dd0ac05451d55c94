//! What helps to mend a text that is refused: the line with its place, what is wrong there, and the nearest names.
#![tactic(auto)]

mod advice;
mod excerpt;
mod explanation;
mod help;
mod mention;
mod mentions;
mod nearest;
mod plant_word;
mod remarks;
mod table;
mod topic;
mod unknown_word;

pub use excerpt::{column_among, ended_lines, marked_column, marked_line, whole_among};
pub use explanation::{explain, kinds};
pub use help::{Meant, help_with, help_with_a_program, help_with_a_schedule, help_with_a_word};
