ghost use Rattle.std.specs.Prelude.{◌≡◌, ℕ, Bool, List, IfOk, slice_set};
ghost use Rattle.declared_names.specs.Kinds.{kind_of};
ghost use Rattle.declared_names.specs.declared.declarations.Declaration.{Declaration};
ghost use Rattle.gates.specs.Gates.{Agrees};
ghost use Rattle.scan_steps.specs.declared.slot.Slot.TheVariants.{Variable};
ghost use Rattle.scan_gates.specs.Encoded.{slots_at, value_at};
ghost use Rattle.text_commands.specs.Series.{IsVariableAt};
ghost use Rattle.ladder_systems.specs.Steps.States.{AreOf, none};

use gates::Gates;
use scan_gates::{EncodedSlot, EncodedValue, IntWord, TimeWord};
use std::alloc::{AllocError, Global};
use std_blocks::Value;

/// A value that doesn't change.
pub(crate) fn constant_value(
    alloc: Global,
    gates: &Gates,
    value: Value,
) -> Result<EncodedValue, AllocError>
    ensures value { IfOk result (λ x. (v : ℕ → Bool) → Agrees v gates.now → value_at v x ≡ value) }
    ensures kind { IfOk result (λ x. kind_of (value_at none x) ≡ kind_of value) }
{
    match value {
        Value::Bool(on) => Ok(EncodedValue::Bool(gates.constant(on))),
        Value::Int(number) => {
            let word = IntWord::constant(alloc, gates, number)?;
            Ok(EncodedValue::Int(word))
        }
        Value::Time(time) => {
            let word = TimeWord::constant(alloc, gates, time)?;
            Ok(EncodedValue::Time(word))
        }
    }
}

/// A variable with this value stands at a place, unless that is beyond the end.
pub(crate) fn put_variable(place: usize, value: EncodedValue, slots: &mut [EncodedSlot])
    ensures slots { (v : ℕ → Bool) → slots_at v slots.new
        ≡ slice_set (slots_at v slots.old) place (Variable (value_at v value)) }
    ensures of { (ds : List Declaration) → IsVariableAt ds place (kind_of (value_at none value)) → AreOf ds slots.old → AreOf ds slots.new }
{
    if place < slots.len() {
        slots[place] = EncodedSlot::Variable(value);
    }
}
