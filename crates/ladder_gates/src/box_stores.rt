ghost use Rattle.std.specs.Prelude.{◌≡◌, ℕ, Bool, Some, length};
ghost use Rattle.gates.specs.Gates.{Agrees};
ghost use Rattle.scan_gates.specs.Encoded.{instance_at, instances_at, slots_at, value_at};
ghost use Rattle.power_flow.specs.Meaning.{store};
ghost use Rattle.power_flow.specs.Steps.BoxStores.{boxes_stored, kinds_stored, pin_store, pin_stores};

use gates::Gates;
use scan_gates::{EncodedInstance, EncodedSlot, EncodedValue, output_of, put_instance, put_value};
use scan_steps::{BoundBox, BoundOutput};

/// Stores a value at the place of a variable of its kind, if there is one.
pub(crate) fn store_value(slots: &mut [EncodedSlot], place: Option<usize>, value: EncodedValue)
    ensures { (v : ℕ → Bool) → slots_at v slots.new
        ≡ kinds_stored (slots_at v slots.old) (store place (Some (value_at v value))) }
{
    if let Some(place) = place {
        put_value(slots, place, value);
    }
}

/// Stores an output at its operand.
fn store_pin(gates: &Gates, pin: &BoundOutput, made: EncodedInstance, slots: &mut [EncodedSlot])
    ensures { (v : ℕ → Bool) → Agrees v gates.now → slots_at v slots.new
        ≡ kinds_stored (slots_at v slots.old) (pin_store (instance_at v made).outputs pin.now pin.now.store) }
{
    if let Some(place) = pin.store {
        put_value(slots, place, output_of(gates, made, pin.field));
    }
}

/// Stores the outputs of a box at their operands.
fn store_pins(gates: &Gates, pins: &[BoundOutput], made: EncodedInstance, slots: &mut [EncodedSlot])
    ensures { (v : ℕ → Bool) → Agrees v gates.now → slots_at v slots.new
        ≡ kinds_stored (slots_at v slots.old) (pin_stores (instance_at v made).outputs pins.now) }
{
    for pin in pins {
        store_pin(gates, pin, made, slots);
    }
}

/// Puts the blocks back into their slots, and stores their outputs at their operands, in order.
pub(crate) fn store_boxes(
    gates: &Gates,
    boxes: &[BoundBox],
    results: &[EncodedInstance],
    slots: &mut [EncodedSlot],
)
    requires { length results.now ≡ length boxes.now }
    ensures { (v : ℕ → Bool) → Agrees v gates.now → slots_at v slots.new
        ≡ boxes_stored boxes.now (instances_at v results.now) (slots_at v slots.old) }
{
    for k in 0..boxes.len() {
        let bound = &boxes[k];
        let made = results[k];
        put_instance(slots, bound.instance, made);
        store_pins(gates, &bound.outputs, made, slots);
    }
}
