ghost use Rattle.std.specs.Prelude.{◌≡◌, ◌↔◌, IsTrue};
ghost use Rattle.evaluation.specs.Inputs.{address_of, same_address, value_of};
ghost use Rattle.evaluation.specs.Steps.InputWords.{key_of};

use std_blocks::Value;
use words::{Address, Space};

/// A listed field input: a bit (`%IX`) or a word (`%IW`) of a number, and what it holds.
#[derive(Clone, Copy, Debug, PartialEq, Eq)]
pub enum FieldInput {
    Bit { number: u16, value: bool },
    Word { number: u16, value: i16 },
}

impl FieldInput {
    /// Where it stands.
    pub fn address(&self) -> Address
        ensures { result ≡ address_of self.now }
    {
        match *self {
            FieldInput::Bit { number, value: _ } => Address {
                space: Space::Bit,
                number,
            },
            FieldInput::Word { number, value: _ } => Address {
                space: Space::Word,
                number,
            },
        }
    }

    /// Whether it stands at an address.
    pub(crate) fn is_at(&self, address: Address) -> bool
        ensures { result ≡ same_address (address_of self.now) address }
    {
        match (*self, address.space) {
            (FieldInput::Bit { number, value: _ }, Space::Bit)
            | (FieldInput::Word { number, value: _ }, Space::Word) => number == address.number,
            _ => false,
        }
    }

    /// A number for its address.
    pub(crate) fn key(&self) -> u32
        ensures { result ≡ key_of self.now }
    {
        match *self {
            FieldInput::Bit { number, value: _ } => 2 * u32::from(number),
            FieldInput::Word { number, value: _ } => 2 * u32::from(number) + 1,
        }
    }

    /// What it holds: a BOOL or an INT.
    pub fn value(&self) -> Value
        ensures { result ≡ value_of self.now }
    {
        match *self {
            FieldInput::Bit { number: _, value } => Value::Bool(value),
            FieldInput::Word { number: _, value } => Value::Int(value),
        }
    }

    /// Whether both list the same address with the same value.
    pub fn same(&self, other: &Self) -> bool
        ensures { IsTrue result ↔ (self.now ≡ other.now) }
    {
        match (*self, *other) {
            (
                FieldInput::Bit { number, value },
                FieldInput::Bit {
                    number: other_number,
                    value: other_value,
                },
            ) => number == other_number && value == other_value,
            (
                FieldInput::Word { number, value },
                FieldInput::Word {
                    number: other_number,
                    value: other_value,
                },
            ) => number == other_number && value == other_value,
            _ => false,
        }
    }
}
