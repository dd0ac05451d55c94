ghost use Rattle.std.specs.Prelude.{◌≡◌, ◌<◌, List, All, true, false, length, map, sum_by};
ghost use Rattle.std.specs.List.{AllByRecursion};
ghost use Rattle.power_flow.specs.Meaning.{coil_value, coil_memory, NetworkMeaning, moment};
ghost use Rattle.power_flow.specs.Steps.BoxStores.{kinds_stored};
ghost use Rattle.network.specs.Links.{Diagram};
ghost use Rattle.declared_names.specs.declared.declarations.Declaration.{Declaration};
ghost use Rattle.scan_steps.specs.Slots.{AreSlotsOf};
ghost use Rattle.power_flow.specs.Scan.{AllAreWide, ScanMeaning};
ghost use Rattle.drawings.specs.declared.place.Place.{Place};
ghost use Rattle.power_flow.specs.Steps.Circuit.{HasShape, IsCircuit, HasRoom, AreCircuits, circuit_diagram};
ghost use Rattle.power_flow.specs.Steps.Edges.{AreEdgelessCircuits};
ghost use Rattle.power_flow.specs.Steps.CoilStores.{bound_store, bound_memory, bound_stores, bound_memories};

use crate::scan::boxes::{store_boxes, store_value};
use crate::state::State;
use crate::steps::circuit::Circuit;
use arrayvec::ArrayVec;
use drawings::CoilKind;
use scan_steps::{BoundCoil, Instance, Slots, pass};
use std_blocks::Value;

fn value_of_coil(kind: CoilKind, link: bool, memory: bool) -> Option<bool>
    ensures { result ≡ coil_value kind link memory }
{
    match kind {
        CoilKind::Plain => Some(link),
        CoilKind::Negated => Some(!link),
        CoilKind::Set => link.then_some(true),
        CoilKind::Reset => link.then_some(false),
        CoilKind::Rise => Some(link && !memory),
        CoilKind::Fall => Some(!link && memory),
    }
}

fn memory_of_coil(kind: CoilKind, link: bool, memory: bool) -> bool
    ensures { result ≡ coil_memory kind link memory }
{
    match kind {
        CoilKind::Rise | CoilKind::Fall => link,
        CoilKind::Plain | CoilKind::Negated | CoilKind::Set | CoilKind::Reset => memory,
    }
}

/// Stores what a coil stores, by its left link and its memory, and then its memory.
fn store_any_coil(coil: &BoundCoil, link: bool, memories: &mut [bool], slots: &mut Slots)
    requires { coil.now.memory < length memories.old }
    ensures slots { slots.new ≡ kinds_stored slots.old (bound_store coil.now link memories.old) }
    ensures memories { memories.new ≡ bound_memory coil.now link memories.old }
{
    let memory = memories[coil.memory];
    if let Some(on) = value_of_coil(coil.kind, link, memory) {
        store_value(slots, coil.place, Value::Bool(on));
    }
    memories[coil.memory] = memory_of_coil(coil.kind, link, memory);
}

/// Stores what a coil stores. A plain coil keeps no memory.
fn store_coil(coil: &BoundCoil, link: bool, memories: &mut [bool], slots: &mut Slots)
    requires { coil.now.memory < length memories.old }
    ensures slots { slots.new ≡ kinds_stored slots.old (bound_store coil.now link memories.old) }
    ensures memories { memories.new ≡ bound_memory coil.now link memories.old }
{
    if let CoilKind::Plain = coil.kind {
        store_value(slots, coil.place, Value::Bool(link));
    } else {
        store_any_coil(coil, link, memories, slots);
    }
}

/// Stores the coils in their order, and their memories.
fn store_coils(coils: &[BoundCoil], links: &[bool], memories: &mut [bool], slots: &mut Slots)
    requires links { length links.now ≡ length coils.now }
    requires memories { All (λ c. c.memory < length memories.old) coils.now }
    ensures slots { slots.new ≡ kinds_stored slots.old (bound_stores coils.now 0 links.now memories.old) }
    ensures memories { memories.new ≡ bound_memories coils.now 0 links.now memories.old }
{
    for k in 0..coils.len() {
        store_coil(&coils[k], links[k], memories, slots);
    }
}

/// One scan of a network by its steps, dt milliseconds after the one before.
fn scan_steps_of(
    circuit: &Circuit,
    slots: &mut Slots,
    memories: &mut [bool],
    rows: &mut [bool],
    links: &mut [bool],
    results: &mut [Instance],
    dt: u32,
)
    requires shape { HasShape circuit.now }
    requires memories { length memories.old ≡ length circuit.now.elements.items }
    requires rows { length rows.old ≡ circuit.now.rows }
    requires links { length links.old ≡ length circuit.now.coils.items }
    requires results { length results.old ≡ length circuit.now.boxes.items }
    ensures { (ds : List Declaration) (d : Diagram) → IsCircuit ds d circuit.now → AreSlotsOf ds slots.old
        → NetworkMeaning ds d dt (moment slots.old memories.old) (moment slots.new memories.new) }
{
    pass(
        &circuit.steps,
        &circuit.boxes,
        slots,
        rows,
        memories,
        links,
        results,
        dt,
    );
    store_boxes(&circuit.boxes, results, slots);
    store_coils(&circuit.coils, links, memories, slots);
}

/// One scan of a network, dt milliseconds after the one before.
pub fn scan_circuit(
    circuit: &Circuit,
    slots: &mut Slots,
    memories: &mut [bool],
    rows: &mut [bool],
    links: &mut [bool],
    results: &mut [Instance],
    dt: u32,
)
    requires circuit { (ds : List Declaration) × (d : Diagram) × IsCircuit ds d circuit.now × AreSlotsOf ds slots.old }
    requires shape { HasShape circuit.now }
    requires memories { length memories.old ≡ length circuit.now.elements.items }
    requires rows { length rows.old ≡ circuit.now.rows }
    requires links { length links.old ≡ length circuit.now.coils.items }
    requires results { length results.old ≡ length circuit.now.boxes.items }
    ensures { (ds : List Declaration) (d : Diagram) → IsCircuit ds d circuit.now → AreSlotsOf ds slots.old
        → NetworkMeaning ds d dt (moment slots.old memories.old) (moment slots.new memories.new) }
{
    if let Some(rung) = &circuit.rung {
        rung.scan(slots);
    } else {
        scan_steps_of(circuit, slots, memories, rows, links, results, dt);
    }
}

/// One scan of the networks, one after the other.
pub fn scan_circuits(
    circuits: &[Circuit],
    slots: &mut Slots,
    memories: &mut [bool],
    rows: &mut [bool],
    links: &mut [bool],
    results: &mut [Instance],
    dt: u32,
)
    requires networks { (ds : List Declaration) × (rails : List Place) × AreCircuits ds rails circuits.now
        × AllAreWide (map (circuit_diagram rails) circuits.now) × AreSlotsOf ds slots.old }
    requires room { AllByRecursion (HasRoom (length rows.old) (length links.old) (length results.old)) circuits.now }
    requires memories { length memories.old ≡ sum_by (λ c. length c.elements.items) circuits.now }
    ensures { (ds : List Declaration) (rails : List Place) → AreCircuits ds rails circuits.now
        → AllAreWide (map (circuit_diagram rails) circuits.now) → AreSlotsOf ds slots.old
        → ScanMeaning ds dt (map (circuit_diagram rails) circuits.now) slots.old memories.old slots.new memories.new }
{
    if let Some((first, rest)) = circuits.split_first() {
        let elements = first.elements.len();
        let coils = first.coils.len();
        let boxes = first.boxes.len();
        let (here, later) = memories.split_at_mut(elements);
        scan_circuit(
            first,
            slots,
            here,
            &mut rows[..first.rows],
            &mut links[..coils],
            &mut results[..boxes],
            dt,
        );
        scan_circuits(rest, slots, later, rows, links, results, dt);
    }
}

/// Whether memories that are all OFF are so after a scan.
fn still_off(all_off: bool, edges: bool) -> bool
    ensures off { result ≡ true → all_off ≡ true }
    ensures edgeless { result ≡ true → edges ≡ false }
{
    all_off && !edges
}

impl State {
    /// One scan of these networks, which have so many rows at most, and of which some may have edges. Without them
    /// memories that are all OFF stay so.
    pub(crate) fn run(&mut self, circuits: &[Circuit], rows: usize, edges: bool, dt: u32)
        requires edges { edges ≡ false → AreEdgelessCircuits circuits.now }
        requires networks { (ds : List Declaration) × (rails : List Place) × AreCircuits ds rails circuits.now
            × AllAreWide (map (circuit_diagram rails) circuits.now) × AreSlotsOf ds self.old.slots }
        requires room { AllByRecursion (HasRoom rows self.old.waiting_links self.old.waiting_results) circuits.now }
        requires memories { length self.old.memories ≡ sum_by (λ c. length c.elements.items) circuits.now }
        ensures meaning { (ds : List Declaration) (rails : List Place) → AreCircuits ds rails circuits.now
            → AllAreWide (map (circuit_diagram rails) circuits.now) → AreSlotsOf ds self.old.slots
            → ScanMeaning ds dt (map (circuit_diagram rails) circuits.now)
            self.old.slots self.old.memories self.new.slots self.new.memories }
        ensures memories { length self.new.memories ≡ length self.old.memories }
        ensures links { self.new.waiting_links ≡ self.old.waiting_links }
        ensures results { self.new.waiting_results ≡ self.old.waiting_results }
    {
        let mut short = ArrayVec::<bool, 16>::from([false; 16]);
        let mut long = ArrayVec::<bool, 200>::new();
        let column = if rows <= 16 {
            short.as_mut_slice()
        } else {
            long = ArrayVec::from([false; 200]);
            long.as_mut_slice()
        };
        scan_circuits(
            circuits,
            &mut self.slots,
            self.memories.as_mut_slice(),
            column,
            self.links.as_mut_slice(),
            self.results.as_mut_slice(),
            dt,
        );
        self.all_off = still_off(self.all_off, edges);
    }
}
