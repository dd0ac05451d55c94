ghost use Rattle.std.specs.Prelude.{◌≡◌, Some};
ghost use Rattle.std_blocks.specs.Pins.{field_value};
ghost use Rattle.scan_steps.specs.Values.{is_true, int_or_zero, time_or_zero};
ghost use Rattle.scan_steps.specs.Steps.Sources.{source_value, source_bit};

use crate::slots::Slots;
use std_blocks::{Field, PinsOut, Value};

/// Where a scan finds the value of a pin, an operand or a contact.
#[derive(Clone, Copy)]
pub enum Source {
    /// Nothing is drawn or written there: OFF, or 0.
    Nothing,
    /// The state of this row of the network, counted from its topmost row.
    Power(usize),
    /// The variable at this place of the declarations.
    Variable(usize),
    /// An output of the block at this place of the declarations.
    Output(usize, Field),
    /// A number or a duration.
    Literal(Value),
}

/// What an output pin gives.
pub fn output_value(outputs: &PinsOut, field: Field) -> Value
    ensures { result ≡ field_value outputs.now field }
{
    match field {
        Field::Bit(k) => Value::Bool(matches!(outputs.bits.get(k), Some(true))),
        Field::Int => Value::Int(outputs.int),
        Field::Time => Value::Time(outputs.time),
    }
}

/// Whether an output pin is ON.
pub fn is_output_on(outputs: &PinsOut, field: Field) -> bool
    ensures { result ≡ is_true (Some (field_value outputs.now field)) }
{
    match field {
        Field::Bit(k) => matches!(outputs.bits.get(k), Some(true)),
        Field::Int | Field::Time => false,
    }
}

impl Source {
    /// The value that these slots have there; none where the state of a row is read.
    fn value(&self, slots: &Slots) -> Option<Value>
        ensures { result ≡ source_value slots.now self.now }
    {
        match self {
            Source::Nothing | Source::Power(_) => None,
            Source::Variable(place) => slots.variable(*place),
            Source::Output(place, field) => match slots.block(*place) {
                Some(instance) => Some(output_value(&instance.outputs, *field)),
                None => None,
            },
            Source::Literal(value) => Some(*value),
        }
    }

    /// Whether the value there is TRUE.
    #[inline(never)]
    fn is_true(&self, slots: &Slots) -> bool
        ensures { result ≡ is_true (source_value slots.now self.now) }
    {
        matches!(self.value(slots), Some(Value::Bool(true)))
    }

    /// Whether it is ON, a row of the network by its state.
    pub fn is_on(&self, slots: &Slots, rows: &[bool]) -> bool
        ensures { result ≡ source_bit slots.now rows.now self.now }
    {
        if let Source::Power(row) = self {
            return matches!(rows.get(*row), Some(true));
        }
        if let Source::Nothing = self {
            return false;
        }
        if let Source::Variable(place) = self {
            return slots.is_on(*place);
        }
        self.is_true(slots)
    }

    /// The INT there, or 0.
    pub fn int(&self, slots: &Slots) -> i16
        ensures { result ≡ int_or_zero (source_value slots.now self.now) }
    {
        if let Source::Literal(Value::Int(number)) = self {
            return *number;
        }
        self.stored_int(slots)
    }

    /// The TIME there, or 0.
    pub fn time(&self, slots: &Slots) -> u32
        ensures { result ≡ time_or_zero (source_value slots.now self.now) }
    {
        if let Source::Literal(Value::Time(time)) = self {
            return *time;
        }
        self.stored_time(slots)
    }

    /// The INT there, or 0.
    #[inline(never)]
    fn stored_int(&self, slots: &Slots) -> i16
        ensures { result ≡ int_or_zero (source_value slots.now self.now) }
    {
        match self.value(slots) {
            Some(Value::Int(number)) => number,
            _ => 0,
        }
    }

    /// The TIME there, or 0.
    #[inline(never)]
    fn stored_time(&self, slots: &Slots) -> u32
        ensures { result ≡ time_or_zero (source_value slots.now self.now) }
    {
        match self.value(slots) {
            Some(Value::Time(time)) => time,
            _ => 0,
        }
    }
}
