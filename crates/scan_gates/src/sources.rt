ghost use Rattle.std.specs.Prelude.{◌≡◌, ℕ, Bool, IfOk, slice_get, slice_index_or, Some};
ghost use Rattle.std.specs.Option.{option_and_then, option_map};
ghost use Rattle.gates.specs.Signals.{signal_value};
ghost use Rattle.gates.specs.Gates.{Agrees};
ghost use Rattle.gate_words.specs.Values.{int_at, time_at};
ghost use Rattle.std_blocks.specs.Pins.{field_value};
ghost use Rattle.scan_steps.specs.Conducting.{bit_at};
ghost use Rattle.scan_steps.specs.Slots.{variable_at};
ghost use Rattle.scan_steps.specs.Values.{is_true, int_or_zero, time_or_zero};
ghost use Rattle.scan_steps.specs.Steps.Sources.{slot_output, source_value, source_bit};
ghost use Rattle.scan_gates.specs.Encoded.{bits_at, slots_at, instance_at, value_at};

use crate::encoded::{EncodedSlot, EncodedValue, constant_value};
use block_gates::EncodedInstance;
use gate_words::{IntWord, TimeWord};
use gates::{Gates, Signal};
use scan_steps::Source;
use std::alloc::{AllocError, Global};
use std_blocks::{Field, Value};

/// What an output pin of a block gives.
pub fn output_of(gates: &Gates, instance: EncodedInstance, field: Field) -> EncodedValue
    ensures { (v : ℕ → Bool) → Agrees v gates.now → value_at v result ≡ field_value (instance_at v instance).outputs field }
{
    match field {
        Field::Bit(place) => EncodedValue::Bool(instance.output_bit(gates, place)),
        Field::Int => EncodedValue::Int(instance.output_int(gates)),
        Field::Time => EncodedValue::Time(instance.output_time(gates)),
    }
}

/// Whether a value is TRUE.
pub(crate) fn truth_of(gates: &Gates, value: EncodedValue) -> Signal
    ensures { (v : ℕ → Bool) → Agrees v gates.now → signal_value v result ≡ is_true (Some (value_at v value)) }
{
    match value {
        EncodedValue::Bool(on) => on,
        EncodedValue::Int(_) | EncodedValue::Time(_) => gates.constant(false),
    }
}

/// The value of the variable at a place, if there is one.
fn variable_of(slots: &[EncodedSlot], place: usize) -> Option<EncodedValue>
    ensures { (v : ℕ → Bool) → option_map (value_at v) result ≡ variable_at (slots_at v slots.now) place }
{
    match slots.get(place) {
        Some(EncodedSlot::Variable(value)) => Some(*value),
        Some(EncodedSlot::Block(_)) | None => None,
    }
}

/// Whether the variable at a place is TRUE.
pub fn variable_on(gates: &Gates, slots: &[EncodedSlot], place: usize) -> Signal
    ensures { (v : ℕ → Bool) → Agrees v gates.now
        → signal_value v result ≡ is_true (variable_at (slots_at v slots.now) place) }
{
    match slots.get(place) {
        Some(EncodedSlot::Variable(value)) => truth_of(gates, *value),
        Some(EncodedSlot::Block(_)) | None => gates.constant(false),
    }
}

/// An output of the block at a place, if there is one.
fn output_at(
    gates: &Gates,
    slots: &[EncodedSlot],
    place: usize,
    field: Field,
) -> Option<EncodedValue>
    ensures { (v : ℕ → Bool) → Agrees v gates.now → option_map (value_at v) result
        ≡ option_and_then (slot_output field) (slice_get (slots_at v slots.now) place) }
{
    match slots.get(place) {
        Some(EncodedSlot::Block(instance)) => Some(output_of(gates, *instance, field)),
        Some(EncodedSlot::Variable(_)) | None => None,
    }
}

/// Whether an output of the block at a place is ON.
fn output_on(gates: &Gates, slots: &[EncodedSlot], place: usize, field: Field) -> Signal
    ensures { (v : ℕ → Bool) → Agrees v gates.now → signal_value v result
        ≡ is_true (option_and_then (slot_output field) (slice_get (slots_at v slots.now) place)) }
{
    match slots.get(place) {
        Some(EncodedSlot::Block(instance)) => {
            truth_of(gates, output_of(gates, *instance, field))
        }
        Some(EncodedSlot::Variable(_)) | None => gates.constant(false),
    }
}

/// Whether the value at a source is TRUE.
pub(crate) fn source_on(gates: &Gates, slots: &[EncodedSlot], source: Source) -> Signal
    ensures { (v : ℕ → Bool) → Agrees v gates.now
        → signal_value v result ≡ is_true (source_value (slots_at v slots.now) source) }
{
    match source {
        Source::Nothing | Source::Power(_) => gates.constant(false),
        Source::Variable(place) => variable_on(gates, slots, place),
        Source::Output(place, field) => output_on(gates, slots, place, field),
        Source::Literal(value) => gates.constant(matches!(value, Value::Bool(true))),
    }
}

/// The state of a row; OFF beyond the last one.
fn row_on(gates: &Gates, rows: &[Signal], row: usize) -> Signal
    ensures { (v : ℕ → Bool) → Agrees v gates.now → signal_value v result ≡ bit_at (bits_at v rows.now) row }
{
    match rows.get(row) {
        Some(on) => *on,
        None => gates.constant(false),
    }
}

/// Whether a source is ON, a row by its state.
pub(crate) fn source_or_row_on(
    gates: &Gates,
    slots: &[EncodedSlot],
    rows: &[Signal],
    source: Source,
) -> Signal
    ensures { (v : ℕ → Bool) → Agrees v gates.now
        → signal_value v result ≡ source_bit (slots_at v slots.now) (bits_at v rows.now) source }
{
    if let Source::Power(row) = source {
        row_on(gates, rows, row)
    } else {
        source_on(gates, slots, source)
    }
}

/// The value at a source, if there is one: none where the state of a row is read.
pub(crate) fn source_of(
    alloc: Global,
    gates: &Gates,
    slots: &[EncodedSlot],
    source: Source,
) -> Result<Option<EncodedValue>, AllocError>
    ensures { IfOk result (λ value. (v : ℕ → Bool) → Agrees v gates.now
        → option_map (value_at v) value ≡ source_value (slots_at v slots.now) source) }
{
    match source {
        Source::Nothing | Source::Power(_) => Ok(None),
        Source::Variable(place) => Ok(variable_of(slots, place)),
        Source::Output(place, field) => Ok(output_at(gates, slots, place, field)),
        Source::Literal(value) => {
            let new = constant_value(alloc, gates, value)?;
            Ok(Some(new))
        }
    }
}

/// The INT of a value, 0 where there is none.
pub(crate) fn int_of(gates: &Gates, value: Option<EncodedValue>) -> IntWord
    ensures { (v : ℕ → Bool) → Agrees v gates.now → int_at v result ≡ int_or_zero (option_map (value_at v) value) }
{
    match value {
        Some(EncodedValue::Int(word)) => word,
        Some(EncodedValue::Bool(_)) | Some(EncodedValue::Time(_)) | None => IntWord::zero(gates),
    }
}

/// The TIME of a value, 0 where there is none.
pub(crate) fn time_of(gates: &Gates, value: Option<EncodedValue>) -> TimeWord
    ensures { (v : ℕ → Bool) → Agrees v gates.now → time_at v result ≡ time_or_zero (option_map (value_at v) value) }
{
    match value {
        Some(EncodedValue::Time(word)) => word,
        Some(EncodedValue::Bool(_)) | Some(EncodedValue::Int(_)) | None => TimeWord::zero(gates),
    }
}
