//! The standard function blocks: latches, counters and timers, each as a step from its inputs to its outputs.
#![tactic(auto)]

mod block_state;
mod block_type;
mod pin;
mod pins;
mod value;

pub use block_state::BlockState;
pub use block_type::BlockType;
pub use pin::{Field, Pin};
pub use pins::{PinsIn, PinsOut};
pub use value::{Value, are_same_values};
