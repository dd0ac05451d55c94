ghost use Rattle.std.specs.Prelude.{◌≡◌, ◌≤◌, ℕ, Bool, List, All, OnOk, length, slice_set};
ghost use Rattle.declared_names.specs.declared.declarations.Declaration.{Declaration};
ghost use Rattle.gates.specs.Gates.{Agrees, IsBuilt};
ghost use Rattle.scan_gates.specs.Encoded.{bits_at, slots_at};
ghost use Rattle.scan_steps.specs.declared.slot.Slot.TheVariants.{Variable};
ghost use Rattle.power_flow.specs.Meaning.{moment};
ghost use Rattle.text_commands.specs.Restarts.{first_slots};
ghost use Rattle.verifying.specs.Runs.{CanHold, IsBoolAt, assigned, before_scan, opened, settings_of, width};
ghost use Rattle.ladder_systems.specs.Steps.States.{AreOf};
ghost use Rattle.ladder_systems.specs.Steps.LadderStates.{AreStates};

use crate::restarting::restart_where;
use crate::variables::{constant_value, put_variable};
use gates::{Gates, Signal};
use scan_gates::{EncodedSlot, EncodedValue};
use std::alloc::{AllocError, Global};
use verifying::{Setting, Setup};

/// Gives each of these variables its value of the row.
fn assign_row(free: &[usize], row: &[Signal], slots: &mut [EncodedSlot])
    requires { length free.now ≤ length row.now }
    ensures slots { (v : ℕ → Bool) → slots_at v slots.new
        ≡ assigned (settings_of free.now (bits_at v row.now)) (slots_at v slots.old) }
    ensures of { (ds : List Declaration) → All (IsBoolAt ds) free.now → AreOf ds slots.old → AreOf ds slots.new }
{
    for digit in 0..free.len() {
        put_variable(free[digit], EncodedValue::Bool(row[digit]), slots);
    }
}

/// Gives a variable the value at which it is held.
fn assign(
    alloc: Global,
    gates: &Gates,
    setting: &Setting,
    slots: &mut [EncodedSlot],
) -> Result<(), AllocError>
    ensures slots { OnOk result ((v : ℕ → Bool) → Agrees v gates.now
        → slots_at v slots.new ≡ slice_set (slots_at v slots.old) setting.now.place (Variable setting.now.value)) }
    ensures of { OnOk result ((ds : List Declaration) → CanHold ds setting.now → AreOf ds slots.old → AreOf ds slots.new) }
{
    let value = constant_value(alloc, gates, setting.value)?;
    put_variable(setting.place, value, slots);
    Ok(())
}

/// Gives each of these variables the value at which it is held.
fn assign_held(
    alloc: Global,
    gates: &Gates,
    held: &[Setting],
    slots: &mut [EncodedSlot],
) -> Result<(), AllocError>
    ensures slots { OnOk result ((v : ℕ → Bool) → Agrees v gates.now → slots_at v slots.new ≡ assigned held.now (slots_at v slots.old)) }
    ensures of { OnOk result ((ds : List Declaration) → All (CanHold ds) held.now → AreOf ds slots.old → AreOf ds slots.new) }
{
    for setting in held {
        assign(alloc, gates, setting, slots)?;
    }
    Ok(())
}

/// Restarts the run where the row says so, if runs may restart.
fn restart_if(
    alloc: Global,
    gates: &mut Gates,
    setup: &Setup,
    row: &[Signal],
    first: &[EncodedSlot],
    slots: &mut Vec<EncodedSlot>,
    memories: &mut Vec<Signal>,
) -> Result<(), AllocError>
    requires row { length row.now ≡ width setup.now }
    requires first { (v : ℕ → Bool) → Agrees v gates.old → slots_at v first.now ≡ first_slots setup.now.ladder.declarations }
    requires of { AreOf setup.now.ladder.declarations first.now }
    requires state { AreStates setup.now.ladder slots.old.items memories.old.items }
    ensures state { OnOk result (AreStates setup.now.ladder slots.new.items memories.new.items) }
    ensures opened { OnOk result (IsBuilt gates.old gates.new (λ v. moment (slots_at v slots.new.items) (bits_at v memories.new.items)
        ≡ opened setup.now (bits_at v row.now) (moment (slots_at v slots.old.items) (bits_at v memories.old.items)))) }
{
    match setup.kept() {
        Some(kept) => {
            let restarts = row[setup.free().len()];
            restart_where(alloc, gates, restarts, kept, first, slots, memories)
        }
        None => Ok(()),
    }
}

/// Gives the free inputs the values of a row, and the held ones their own.
fn set_inputs(
    alloc: Global,
    gates: &Gates,
    setup: &Setup,
    row: &[Signal],
    slots: &mut [EncodedSlot],
) -> Result<(), AllocError>
    requires { length row.now ≡ width setup.now }
    ensures slots { OnOk result ((v : ℕ → Bool) → Agrees v gates.now
        → slots_at v slots.new ≡ before_scan setup.now (bits_at v row.now) (slots_at v slots.old)) }
    ensures of { OnOk result (AreOf setup.now.ladder.declarations slots.old → AreOf setup.now.ladder.declarations slots.new) }
{
    assign_row(setup.free(), row, slots);
    assign_held(alloc, gates, setup.held(), slots)
}

/// The state as a scan finds it: restarted where the row says so, the free inputs with its values, and the held ones with
/// their own.
pub(crate) fn open(
    alloc: Global,
    gates: &mut Gates,
    setup: &Setup,
    row: &[Signal],
    first: &[EncodedSlot],
    slots: &mut Vec<EncodedSlot>,
    memories: &mut Vec<Signal>,
) -> Result<(), AllocError>
    requires row { length row.now ≡ width setup.now }
    requires first { (v : ℕ → Bool) → Agrees v gates.old → slots_at v first.now ≡ first_slots setup.now.ladder.declarations }
    requires of { AreOf setup.now.ladder.declarations first.now }
    requires state { AreStates setup.now.ladder slots.old.items memories.old.items }
    ensures state { OnOk result (AreStates setup.now.ladder slots.new.items memories.new.items) }
    ensures found { OnOk result (IsBuilt gates.old gates.new (λ v.
        let found = opened setup.now (bits_at v row.now) (moment (slots_at v slots.old.items) (bits_at v memories.old.items)) in
        (slots_at v slots.new.items ≡ before_scan setup.now (bits_at v row.now) found.slots)
        × (bits_at v memories.new.items ≡ found.memories))) }
{
    restart_if(alloc, gates, setup, row, first, slots, memories)?;
    set_inputs(alloc, gates, setup, row, slots)
}
