//! What a node needs that runs by itself: which task it evaluates at which reading of its clock, what its field is, and
//! what each of its inputs may say.
#![tactic(auto)]

mod asked;
mod cycle;
mod cycled_task;
mod field_image;
mod field_refusal;
mod input_line;
mod laws;
mod line_word;
mod origin;
mod texts;

pub use asked::Asked;
pub use cycle::Cycle;
pub use cycled_task::CycledTask;
pub use field_image::FieldImage;
pub use field_refusal::FieldRefusal;
pub use input_line::read_input_line;
pub use laws::{
    counts_to_reading, dts_add_up, due_as_planned, due_moments_are_multiples, due_tasks_are_asked,
    never_early, order_as_planned, skips_are_counted,
};
pub use line_word::{LineWord, word_of_line};
pub use origin::{Inlets, Origin, Verdict};
pub use texts::{push_cycle_line, push_ended, push_field_refused, push_overrun, push_taken};
