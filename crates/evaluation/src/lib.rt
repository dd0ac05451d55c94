//! One evaluation of a task: what it was asked, what it took, what it gave and what it left.
#![tactic(auto)]

mod evaluation;
mod field_input;
mod fill;
mod fits;
mod frame;
mod image;
mod input_fault;
mod inputs;
mod laws;
mod message;
mod name;
mod outputs;
mod read_inputs;
mod retained;
mod scan;
mod take;
mod task_state;

pub use evaluation::{Evaluation, outcome};
pub use field_input::FieldInput;
pub use fill::fill_programs;
pub use fits::{fits_state, suits_takes};
pub use frame::Frame;
pub use image::Image;
pub use input_fault::InputFault;
pub use inputs::Inputs;
pub use laws::{one_evaluation, one_meaning};
pub use message::{Message, taken_alike};
pub use name::Name;
pub use read_inputs::push_words;
pub use retained::Retained;
pub use take::{Take, are_same_takes};
pub use task_state::TaskState;
