//! The words that drawings and plants are written in: identifiers, reserved words, numbers, durations and field
//! addresses of IEC 61131-3, and [`Text`], the characters of a word.
#![tactic(auto)]

mod address;
mod durations;
mod names;
mod numbers;
mod short_word;
mod small_numbers;
mod text;

pub use address::{Address, Space};
pub use durations::{duration_up_to, is_duration};
pub use names::{block_type, is_identifier, is_name, is_operand, is_plain_name, is_word_char};
pub use numbers::{is_number, number_up_to};
pub use small_numbers::{small_duration, small_number};
pub use text::Text;
