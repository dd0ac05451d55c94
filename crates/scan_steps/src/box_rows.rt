//! A box in a column: its outputs in the rows of its pins.

ghost use Rattle.std.specs.Prelude.{◌≡◌, ◌<◌, ◌⊎◌, ◌↔◌, ℕ, All, Some, true, false, length};
ghost use Rattle.scan_steps.specs.Conducting.{bit_at};
ghost use Rattle.std_blocks.specs.Pins.{field_value};
ghost use Rattle.scan_steps.specs.Values.{is_true};
ghost use Rattle.scan_steps.specs.Steps.BoxSteps.{HasOutput, box_result};
ghost use Rattle.scan_steps.specs.Steps.Passing.{AreMarked, ArePinsShown, AreShown};

use crate::bound_box::{BoundBox, BoundOutput};
use crate::slot::Instance;
use crate::slots::Slots;
use crate::source::is_output_on;
use std_blocks::PinsOut;

/// Turns off the rows of the output pins.
fn clear_many(pins: &[BoundOutput], rows: &mut [bool])
    requires { All (λ o. o.row < length rows.old) pins.now }
    ensures long { length rows.new ≡ length rows.old }
    ensures cleared { (r : ℕ) → HasOutput pins.now r → bit_at rows.new r ≡ false }
    ensures kept { (r : ℕ) → (HasOutput pins.now r → ⊥) → bit_at rows.new r ≡ bit_at rows.old r }
{
    for pin in pins {
        rows[pin.row] = false;
    }
}

/// Turns off the rows of two output pins.
fn clear_two(pins: &[BoundOutput], rows: &mut [bool])
    requires two { length pins.now ≡ 2 }
    requires within { All (λ o. o.row < length rows.old) pins.now }
    ensures long { length rows.new ≡ length rows.old }
    ensures cleared { (r : ℕ) → HasOutput pins.now r → bit_at rows.new r ≡ false }
    ensures kept { (r : ℕ) → (HasOutput pins.now r → ⊥) → bit_at rows.new r ≡ bit_at rows.old r }
{
    let first = pins[0].row;
    let second = pins[1].row;
    rows[first] = false;
    rows[second] = false;
}

/// Turns on the row of an output pin that is ON.
fn mark_output(pin: &BoundOutput, outputs: &PinsOut, rows: &mut [bool])
    requires { pin.now.row < length rows.old }
    ensures long { length rows.new ≡ length rows.old }
    ensures marked { (r : ℕ) → (bit_at rows.new r ≡ true)
        ↔ ((bit_at rows.old r ≡ true)
        ⊎ ((pin.now.row ≡ r) × (is_true (Some (field_value outputs.now pin.now.field)) ≡ true))) }
{
    if is_output_on(outputs, pin.field) {
        rows[pin.row] = true;
    }
}

/// Turns on the rows of the output pins that are ON.
fn mark_many(pins: &[BoundOutput], outputs: &PinsOut, rows: &mut [bool])
    requires { All (λ o. o.row < length rows.old) pins.now }
    ensures long { length rows.new ≡ length rows.old }
    ensures marked { AreMarked pins.now outputs.now rows.old rows.new }
{
    for pin in pins {
        mark_output(pin, outputs, rows);
    }
}

/// Turns on the rows of two output pins that are ON.
fn mark_two(pins: &[BoundOutput], outputs: &PinsOut, rows: &mut [bool])
    requires two { length pins.now ≡ 2 }
    requires within { All (λ o. o.row < length rows.old) pins.now }
    ensures long { length rows.new ≡ length rows.old }
    ensures marked { AreMarked pins.now outputs.now rows.old rows.new }
{
    mark_output(&pins[0], outputs, rows);
    mark_output(&pins[1], outputs, rows);
}

/// The row of one output pin shows its output.
fn show_one(pins: &[BoundOutput], outputs: &PinsOut, rows: &mut [bool])
    requires one { length pins.now ≡ 1 }
    requires within { All (λ o. o.row < length rows.old) pins.now }
    ensures { ArePinsShown pins.now outputs.now rows.old rows.new }
{
    rows[pins[0].row] = is_output_on(outputs, pins[0].field);
}

/// The rows of two output pins show their outputs.
fn show_two(pins: &[BoundOutput], outputs: &PinsOut, rows: &mut [bool])
    requires two { length pins.now ≡ 2 }
    requires within { All (λ o. o.row < length rows.old) pins.now }
    ensures { ArePinsShown pins.now outputs.now rows.old rows.new }
{
    clear_two(pins, rows);
    mark_two(pins, outputs, rows);
}

/// The rows of the output pins show their outputs.
fn show_many(pins: &[BoundOutput], outputs: &PinsOut, rows: &mut [bool])
    requires { All (λ o. o.row < length rows.old) pins.now }
    ensures { ArePinsShown pins.now outputs.now rows.old rows.new }
{
    clear_many(pins, rows);
    mark_many(pins, outputs, rows);
}

/// The rows of the output pins show their outputs. Most blocks have one or two.
fn show_outputs(pins: &[BoundOutput], outputs: &PinsOut, rows: &mut [bool])
    requires { All (λ o. o.row < length rows.old) pins.now }
    ensures { ArePinsShown pins.now outputs.now rows.old rows.new }
{
    match pins.len() {
        1 => show_one(pins, outputs, rows),
        2 => show_two(pins, outputs, rows),
        _ => show_many(pins, outputs, rows),
    }
}

/// Steps a box by the states of the rows on its left, and shows its outputs in those on its right.
pub(crate) fn step_box(
    bound: &BoundBox,
    made: &mut Instance,
    slots: &Slots,
    rows: &mut [bool],
    dt: u32,
)
    requires { All (λ o. o.row < length rows.old) bound.now.outputs.items }
    ensures made { made.new ≡ box_result bound.now slots.now dt rows.old }
    ensures shown { AreShown bound.now (box_result bound.now slots.now dt rows.old) rows.old rows.new }
{
    bound.step(slots, rows, dt, made);
    show_outputs(&bound.outputs, &made.outputs, rows);
}
