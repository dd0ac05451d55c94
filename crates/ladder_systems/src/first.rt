ghost use Rattle.std.specs.Prelude.{◌≡◌, ◌++◌, [], ◌∷◌, ℕ, Bool, IfOk, OnOk};
ghost use Rattle.gates.specs.Gates.{Agrees};
ghost use Rattle.scan_steps.specs.First.{slot_first};
ghost use Rattle.scan_gates.specs.Encoded.{slot_at, slots_at};
ghost use Rattle.text_commands.specs.Restarts.{first_slots};

use declared_names::{Declarations, Declared};
use gates::Gates;
use scan_gates::{EncodedInstance, EncodedSlot, first_value};
use std::alloc::{AllocError, Global};

/// What stands at a name that is declared so before the first scan.
fn first_slot(gates: &Gates, declared: Declared) -> EncodedSlot
    ensures { (v : ℕ → Bool) → Agrees v gates.now → slot_at v result ≡ slot_first declared }
{
    match declared {
        Declared::Input(kind) | Declared::Output(kind) | Declared::Local(kind) => {
            EncodedSlot::Variable(first_value(gates, kind))
        }
        Declared::Instance(block) => EncodedSlot::Block(EncodedInstance::initial(gates, block)),
    }
}

/// Puts a slot behind the others.
pub(crate) fn push_slot(slot: EncodedSlot, slots: &mut Vec<EncodedSlot>) -> Result<(), AllocError>
    ensures { OnOk result (slots.new.items ≡ slots.old.items ++ slot ∷ []) }
{
    slots.push(slot)?;
    Ok(())
}

/// What stands at each declared name before the first scan.
pub(crate) fn first_slots(
    alloc: Global,
    gates: &Gates,
    declarations: &Declarations,
) -> Result<Vec<EncodedSlot>, AllocError>
    ensures { IfOk result (λ slots. (v : ℕ → Bool) → Agrees v gates.now → slots_at v slots.items ≡ first_slots declarations.now) }
{
    let mut slots = Vec::new(alloc);
    for place in 0..declarations.len() {
        if let Some(declared) = declarations.declared_at(place) {
            let slot = first_slot(gates, declared);
            push_slot(slot, &mut slots)?;
        }
    }
    Ok(slots)
}
