ghost use Rattle.std.specs.Prelude.{◌≡◌, Some, length};
ghost use Rattle.power_flow.specs.Meaning.{store};
ghost use Rattle.power_flow.specs.Steps.BoxStores.{pin_store, pin_stores, kinds_stored, boxes_stored};

use scan_steps::{BoundBox, BoundOutput, Instance, Slots, output_value};
use std_blocks::{PinsOut, Value};

/// Stores a value at the place of a variable of its kind, if there is one.
pub fn store_value(slots: &mut Slots, place: Option<usize>, value: Value)
    ensures { slots.new ≡ kinds_stored slots.old (store place (Some value)) }
{
    if let Some(place) = place {
        slots.set(place, value);
    }
}

/// Stores an output at its operand.
fn store_pin(pin: &BoundOutput, outputs: &PinsOut, slots: &mut Slots)
    ensures { slots.new ≡ kinds_stored slots.old (pin_store outputs.now pin.now pin.now.store) }
{
    if let Some(place) = pin.store {
        slots.set(place, output_value(outputs, pin.field));
    }
}

/// Stores the outputs of a box at their operands.
fn store_many(pins: &[BoundOutput], outputs: &PinsOut, slots: &mut Slots)
    ensures { slots.new ≡ kinds_stored slots.old (pin_stores outputs.now pins.now) }
{
    for pin in pins {
        store_pin(pin, outputs, slots);
    }
}

/// Stores one output at its operand.
fn store_one(pins: &[BoundOutput], outputs: &PinsOut, slots: &mut Slots)
    requires { length pins.now ≡ 1 }
    ensures { slots.new ≡ kinds_stored slots.old (pin_stores outputs.now pins.now) }
{
    store_pin(&pins[0], outputs, slots);
}

/// Stores two outputs at their operands.
fn store_two(pins: &[BoundOutput], outputs: &PinsOut, slots: &mut Slots)
    requires { length pins.now ≡ 2 }
    ensures { slots.new ≡ kinds_stored slots.old (pin_stores outputs.now pins.now) }
{
    store_pin(&pins[0], outputs, slots);
    store_pin(&pins[1], outputs, slots);
}

/// Stores the outputs of a box at their operands.
fn store_pins(pins: &[BoundOutput], outputs: &PinsOut, slots: &mut Slots)
    ensures { slots.new ≡ kinds_stored slots.old (pin_stores outputs.now pins.now) }
{
    match pins.len() {
        1 => store_one(pins, outputs, slots),
        2 => store_two(pins, outputs, slots),
        _ => store_many(pins, outputs, slots),
    }
}

/// Puts the blocks back into their slots, and stores their outputs at their operands, in order.
pub fn store_boxes(boxes: &[BoundBox], results: &[Instance], slots: &mut Slots)
    requires { length results.now ≡ length boxes.now }
    ensures { slots.new ≡ boxes_stored boxes.now results.now slots.old }
{
    for k in 0..boxes.len() {
        let bound = &boxes[k];
        let made = &results[k];
        slots.put_block(bound.instance, made);
        store_pins(&bound.outputs, &made.outputs, slots);
    }
}
