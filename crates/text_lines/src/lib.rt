//! Lines: what they are made of, and messages as whole lines, written and read; texts that go to a writer, lines of a
//! reader, and how far long work is.
#![tactic(auto)]

mod beginnings;
mod behind_parts;
mod bytes;
mod first_words;
mod gaps;
mod gives;
mod heard;
mod how_far;
mod laws;
mod lines;
mod message_line;
mod message_names;
mod names;
mod numbers;
mod on_terminal;
mod outputs;
mod read_fault;
mod read_values;
mod reading;
mod send_fault;
mod send_lines;
mod takes;
mod text_output;
mod told_lines;
mod values;

pub use beginnings::{are_same, behind};
pub use gives::push_gives;
pub use how_far::{HowFar, Progress};
pub use laws::one_message;
pub use lines::{Given, LONGEST_LINE, next_line};
pub use message_line::{push_message, push_name};
pub use names::{push_resource, push_task, resource_name};
pub use numbers::number_of;
pub use on_terminal::OnTerminal;
pub use read_fault::ReadFault;
pub use read_values::value_of;
pub use reading::read_message;
pub use send_fault::SendFault;
pub use send_lines::send_full;
pub use takes::push_takes;
pub use text_output::{WriteFault, write_text};
pub use told_lines::ToldLines;
pub use values::push_value;
