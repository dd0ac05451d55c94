ghost use Rattle.std.specs.Prelude.{◌≡◌, OnOk, List, length, map, sum_by};
ghost use Rattle.std.specs.List.{AllByRecursion};
ghost use Rattle.drawings.specs.declared.place.Place.{Place};
ghost use Rattle.network.specs.Links.{Diagram};
ghost use Rattle.declared_names.specs.declared.declarations.Declaration.{Declaration};
ghost use Rattle.gates.specs.Gates.{IsBuilt};
ghost use Rattle.gate_words.specs.Values.{time_at};
ghost use Rattle.scan_steps.specs.Slots.{AreSlotsOf};
ghost use Rattle.scan_gates.specs.Encoded.{bits_at, slots_at};
ghost use Rattle.power_flow.specs.Meaning.{NetworkMeaning, moment};
ghost use Rattle.power_flow.specs.Scan.{ScanMeaning};
ghost use Rattle.power_flow.specs.Steps.Circuit.{AreCircuits, HasShape, IsCircuit, circuit_diagram};

use crate::steps_encoded::encode_steps;
use gates::{Gates, Signal};
use power_flow::{Circuit, Ladder, kinds_are_kept, steps_are_meant};
use scan_gates::{EncodedSlot, TimeWord};
use std::alloc::{AllocError, Global};

/// One scan of a network, with signals in the place of values.
fn encode_circuit(
    alloc: Global,
    gates: &mut Gates,
    circuit: &Circuit,
    dt: &TimeWord,
    slots: &mut [EncodedSlot],
    memories: &mut [Signal],
) -> Result<(), AllocError>
    requires shape { HasShape circuit.now }
    requires memories { length memories.old ≡ length circuit.now.elements.items }
    ensures { OnOk result (IsBuilt gates.old gates.new (λ v. (ds : List Declaration) (d : Diagram)
        → IsCircuit ds d circuit.now → AreSlotsOf ds (slots_at v slots.old)
        → NetworkMeaning ds d (time_at v dt.now) (moment (slots_at v slots.old) (bits_at v memories.old))
        (moment (slots_at v slots.new) (bits_at v memories.new)))) }
{
    steps_are_meant();
    encode_steps(
        alloc,
        gates,
        &circuit.steps,
        &circuit.boxes,
        &circuit.coils,
        dt,
        circuit.rows,
        slots,
        memories,
    )
}

/// One scan of the networks, one after the other.
fn encode_circuits(
    alloc: Global,
    gates: &mut Gates,
    circuits: &[Circuit],
    dt: &TimeWord,
    slots: &mut [EncodedSlot],
    memories: &mut [Signal],
) -> Result<(), AllocError>
    requires shapes { AllByRecursion HasShape circuits.now }
    requires memories { length memories.old ≡ sum_by (λ c. length c.elements.items) circuits.now }
    ensures { OnOk result (IsBuilt gates.old gates.new (λ v. (ds : List Declaration) (rails : List Place)
        → AreCircuits ds rails circuits.now → AreSlotsOf ds (slots_at v slots.old)
        → ScanMeaning ds (time_at v dt.now) (map (circuit_diagram rails) circuits.now) (slots_at v slots.old) (bits_at v memories.old)
        (slots_at v slots.new) (bits_at v memories.new))) }
{
    kinds_are_kept();
    match circuits.split_first() {
        Some((first, rest)) => {
            let elements = first.elements.len();
            let (here, later) = memories.split_at_mut(elements);
            encode_circuit(alloc, gates, first, dt, slots, here)?;
            encode_circuits(alloc, gates, rest, dt, slots, later)
        }
        None => Ok(()),
    }
}

/// One scan of a ladder, `dt` behind the one before, with signals in the place of what stands at its names and of its
/// memories: under all values of the variables that the gates allow, what the signals become is what a scan leaves of what
/// they were. Only a lack of memory is refused; then slots and memories may be those between two networks.
pub fn encode_scan(
    alloc: Global,
    gates: &mut Gates,
    ladder: &Ladder,
    dt: &TimeWord,
    slots: &mut [EncodedSlot],
    memories: &mut [Signal],
) -> Result<(), AllocError>
    requires { length memories.old ≡ sum_by (λ d. length d.elements) ladder.now.networks }
    ensures { OnOk result (IsBuilt gates.old gates.new (λ v. AreSlotsOf ladder.now.declarations (slots_at v slots.old)
        → ScanMeaning ladder.now.declarations (time_at v dt.now) ladder.now.networks (slots_at v slots.old) (bits_at v memories.old)
        (slots_at v slots.new) (bits_at v memories.new))) }
{
    encode_circuits(alloc, gates, ladder.circuits(), dt, slots, memories)
}
