ghost use Rattle.std.specs.Prelude.{◌≡◌, ℕ, Bool, OnOk, length};
ghost use Rattle.gates.specs.Gates.{Agrees, IsBuilt};
ghost use Rattle.power_flow.specs.Meaning.{moment};
ghost use Rattle.scan_gates.specs.Encoded.{bits_at, slots_at};
ghost use Rattle.scan_steps.specs.Slots.{AreSlotsOf};
ghost use Rattle.text_commands.specs.Restarts.{first_slots};
ghost use Rattle.verifying.specs.Runs.{ScansWith, width};
ghost use Rattle.ladder_systems.specs.Steps.States.{AreOf};
ghost use Rattle.ladder_systems.specs.Steps.LadderStates.{AreStates};

use crate::opening::open;
use gates::{Gates, Signal};
use ladder_gates::encode_scan;
use power_flow::kinds_are_kept;
use scan_gates::{EncodedSlot, TimeWord, declared_are_like, kinds_are_shapes};
use std::alloc::{AllocError, Global};
use verifying::Setup;

/// A scan of a setup with the signals of a row.
pub(crate) fn scan_signals(
    alloc: Global,
    gates: &mut Gates,
    setup: &Setup,
    row: &[Signal],
    first: &[EncodedSlot],
    slots: &mut Vec<EncodedSlot>,
    memories: &mut Vec<Signal>,
) -> Result<(), AllocError>
    requires row { length row.now ≡ width setup.now }
    requires first { (v : ℕ → Bool) → Agrees v gates.old → slots_at v first.now ≡ first_slots setup.now.ladder.declarations }
    requires of { AreOf setup.now.ladder.declarations first.now }
    requires state { AreStates setup.now.ladder slots.old.items memories.old.items }
    ensures memories { OnOk result (length memories.new.items ≡ length memories.old.items) }
    ensures scan { OnOk result (IsBuilt gates.old gates.new (λ v. AreSlotsOf setup.now.ladder.declarations (slots_at v slots.new.items)
        × ScansWith setup.now (bits_at v row.now) (moment (slots_at v slots.old.items) (bits_at v memories.old.items))
        (moment (slots_at v slots.new.items) (bits_at v memories.new.items)))) }
{
    declared_are_like();
    kinds_are_shapes();
    kinds_are_kept();
    open(alloc, gates, setup, row, first, slots, memories)?;
    let _circuits = setup.ladder().circuits();
    let dt = TimeWord::constant(alloc, gates, setup.dt())?;
    encode_scan(alloc, gates, setup.ladder(), &dt, slots, memories)
}
