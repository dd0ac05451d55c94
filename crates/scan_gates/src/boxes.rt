ghost use Rattle.std.specs.Prelude.{◌≡◌, ◌<◌, ℕ, Bool, All, IfOk, OnOk, length, slice_get};
ghost use Rattle.gates.specs.Signals.{signal_value};
ghost use Rattle.gates.specs.Gates.{IsBuilt, Agrees};
ghost use Rattle.gate_words.specs.Values.{time_at};
ghost use Rattle.block_gates.specs.Blocks.{pins_at, state_at};
ghost use Rattle.scan_steps.specs.Conducting.{bit_at};
ghost use Rattle.scan_steps.specs.Steps.BoxSteps.{HasOutput, box_inputs, box_result, state_in};
ghost use Rattle.scan_steps.specs.Steps.Passing.{AreMarked, ArePinsShown, AreShown};
ghost use Rattle.scan_gates.specs.Encoded.{bits_at, slots_at, instance_at};

use crate::encoded::EncodedSlot;
use crate::sources::{int_of, output_of, source_of, source_or_row_on, time_of, truth_of};
use block_gates::{EncodedInstance, EncodedPins};
use gate_words::TimeWord;
use gates::{Gates, Signal};
use scan_steps::{BoundBox, BoundOutput};
use std::alloc::{AllocError, Global};

/// What stands at the place of a box before its step, or else a new block of its type.
fn instance_of(gates: &Gates, bound: &BoundBox, slots: &[EncodedSlot]) -> EncodedInstance
    ensures { (v : ℕ → Bool) → Agrees v gates.now
        → state_at v result ≡ state_in bound.now.block (slice_get (slots_at v slots.now) bound.now.instance) }
{
    if let Some(EncodedSlot::Block(instance)) = slots.get(bound.instance) {
        return *instance;
    }
    EncodedInstance::initial(gates, bound.block)
}

/// The inputs of a box, by the states of the rows.
fn pins_of(
    alloc: Global,
    gates: &Gates,
    bound: &BoundBox,
    slots: &[EncodedSlot],
    rows: &[Signal],
) -> Result<EncodedPins, AllocError>
    ensures { IfOk result (λ pins. (v : ℕ → Bool) → Agrees v gates.now
        → pins_at v pins ≡ box_inputs bound.now (slots_at v slots.now) (bits_at v rows.now)) }
{
    let first = source_or_row_on(gates, slots, rows, bound.bits[0]);
    let second = source_or_row_on(gates, slots, rows, bound.bits[1]);
    let third = source_or_row_on(gates, slots, rows, bound.bits[2]);
    let fourth = source_or_row_on(gates, slots, rows, bound.bits[3]);
    let number = source_of(alloc, gates, slots, bound.int)?;
    let duration = source_of(alloc, gates, slots, bound.time)?;
    let int = int_of(gates, number);
    let time = time_of(gates, duration);
    Ok(EncodedPins {
        first,
        second,
        third,
        fourth,
        int,
        time,
    })
}

/// What the step of a box leaves, `dt` behind the one before.
fn step_box(
    alloc: Global,
    gates: &mut Gates,
    bound: &BoundBox,
    slots: &[EncodedSlot],
    dt: &TimeWord,
    rows: &[Signal],
) -> Result<EncodedInstance, AllocError>
    ensures { IfOk result (λ i. IsBuilt gates.old gates.new (λ v.
        instance_at v i ≡ box_result bound.now (slots_at v slots.now) (time_at v dt.now) (bits_at v rows.now))) }
{
    let instance = instance_of(gates, bound, slots);
    let pins = pins_of(alloc, gates, bound, slots, rows)?;
    let made = instance.step(alloc, gates, &pins, dt)?;
    Ok(made)
}

/// Turns off the rows of the output pins.
fn clear_rows(pins: &[BoundOutput], off: Signal, rows: &mut [Signal])
    requires { All (λ o. o.row < length rows.old) pins.now }
    ensures cleared { (v : ℕ → Bool) (r : ℕ) → HasOutput pins.now r → bit_at (bits_at v rows.new) r ≡ signal_value v off }
    ensures kept { (v : ℕ → Bool) (r : ℕ) → (HasOutput pins.now r → ⊥)
        → bit_at (bits_at v rows.new) r ≡ bit_at (bits_at v rows.old) r }
{
    for pin in pins {
        rows[pin.row] = off;
    }
}

/// Turns on the rows of the output pins that are ON.
fn mark_rows(
    gates: &mut Gates,
    pins: &[BoundOutput],
    shown: EncodedInstance,
    rows: &mut [Signal],
) -> Result<(), AllocError>
    requires { All (λ o. o.row < length rows.old) pins.now }
    ensures { OnOk result (IsBuilt gates.old gates.new
        (λ v. AreMarked pins.now (instance_at v shown).outputs (bits_at v rows.old) (bits_at v rows.new))) }
{
    for pin in pins {
        let on = truth_of(gates, output_of(gates, shown, pin.field));
        rows[pin.row] = gates.or(rows[pin.row], on)?;
    }
    Ok(())
}

/// The rows of the output pins show the outputs.
fn show_outputs(
    gates: &mut Gates,
    pins: &[BoundOutput],
    shown: EncodedInstance,
    rows: &mut [Signal],
) -> Result<(), AllocError>
    requires { All (λ o. o.row < length rows.old) pins.now }
    ensures { OnOk result (IsBuilt gates.old gates.new
        (λ v. ArePinsShown pins.now (instance_at v shown).outputs (bits_at v rows.old) (bits_at v rows.new))) }
{
    clear_rows(pins, gates.constant(false), rows);
    mark_rows(gates, pins, shown, rows)
}

/// Steps a box by the states of the rows on its left, and shows its outputs in those on its right.
pub(crate) fn obey_box(
    alloc: Global,
    gates: &mut Gates,
    bound: &BoundBox,
    slots: &[EncodedSlot],
    dt: &TimeWord,
    rows: &mut [Signal],
) -> Result<EncodedInstance, AllocError>
    requires { All (λ o. o.row < length rows.old) bound.now.outputs.items }
    ensures { IfOk result (λ i. IsBuilt gates.old gates.new (λ v.
        (instance_at v i ≡ box_result bound.now (slots_at v slots.now) (time_at v dt.now) (bits_at v rows.old))
        × AreShown bound.now (box_result bound.now (slots_at v slots.now) (time_at v dt.now) (bits_at v rows.old))
        (bits_at v rows.old) (bits_at v rows.new))) }
{
    let made = step_box(alloc, gates, bound, slots, dt, rows)?;
    show_outputs(gates, &bound.outputs, made, rows)?;
    Ok(made)
}
