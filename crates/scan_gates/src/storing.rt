ghost use Rattle.std.specs.Prelude.{◌≡◌, ℕ, Bool};
ghost use Rattle.scan_steps.specs.Steps.Storing.{value_put, block_put, of_same_kind as same_kind};
ghost use Rattle.scan_gates.specs.Encoded.{slots_at, value_at, instance_at};

use crate::encoded::{EncodedSlot, EncodedValue};
use block_gates::EncodedInstance;

/// The first value, or the second if it is of the same kind.
fn of_same_kind(had: EncodedValue, value: EncodedValue) -> EncodedValue
    ensures { (v : ℕ → Bool) → value_at v result ≡ same_kind (value_at v had) (value_at v value) }
{
    match (had, value) {
        (EncodedValue::Bool(_), EncodedValue::Bool(_))
        | (EncodedValue::Int(_), EncodedValue::Int(_))
        | (EncodedValue::Time(_), EncodedValue::Time(_)) => value,
        _ => had,
    }
}

/// Stores a value at a place, if a variable of its kind stands there.
pub fn put_value(slots: &mut [EncodedSlot], place: usize, value: EncodedValue)
    ensures { (v : ℕ → Bool) → slots_at v slots.new ≡ value_put (slots_at v slots.old) place (value_at v value) }
{
    if let Some(EncodedSlot::Variable(had)) = slots.get(place) {
        let kept = of_same_kind(*had, value);
        slots[place] = EncodedSlot::Variable(kept);
    }
}

/// Puts a block back at a place, if one stands there.
pub fn put_instance(slots: &mut [EncodedSlot], place: usize, instance: EncodedInstance)
    ensures { (v : ℕ → Bool) → slots_at v slots.new ≡ block_put (slots_at v slots.old) place (instance_at v instance) }
{
    if let Some(EncodedSlot::Block(_)) = slots.get(place) {
        slots[place] = EncodedSlot::Block(instance);
    }
}
