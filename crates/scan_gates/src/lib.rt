//! The steps of a scan with signals in the place of values: whatever the variables of the gates are, the signals have the
//! values that the steps leave. In this order: values and slots as signals, what a source gives, rows that are joined,
//! contacts, boxes, steps, what is stored, shapes, and states by their bits.
#![tactic(auto)]

mod boxes;
mod contact;
mod encoded;
mod joining;
mod reading;
mod shape;
mod sources;
mod states;
mod stepping;
mod storing;

pub use block_gates::{
    EncodedCounter, EncodedInstance, EncodedTimer, EncodedUpDown, IntWord, TimeWord,
};
pub use encoded::{EncodedSlot, EncodedValue, constant_value, first_value};
pub use shape::Shape;
pub use sources::{output_of, variable_on};
pub use states::{
    chosen, declared_are_like, is_like, kinds_are_shapes, push_signals, states_are_signals,
    with_inputs,
};
pub use stepping::pass_signals;
pub use storing::{put_instance, put_value};
