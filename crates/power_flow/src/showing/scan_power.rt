ghost use Rattle.std.specs.Prelude.{◌≡◌, ◌++◌, List, Bool, IfOk, OnOk, length, map, sum_by};
ghost use Rattle.std.specs.List.{AllByRecursion};
ghost use Rattle.scan_steps.specs.Slots.{AreSlotsOf};
ghost use Rattle.power_flow.specs.Meaning.{moment};
ghost use Rattle.power_flow.specs.Shown.{ShowsNetwork, ShowsPower};
ghost use Rattle.power_flow.specs.Steps.Circuit.{HasShape, HasRoom, IsCircuit, AreCircuits, circuit_diagram};

use crate::scan::scan::scan_circuit;
use crate::showing::network_power::power_of;
use crate::state::State;
use crate::steps::circuit::Circuit;
use arrayvec::ArrayVec;
use declared_names::Declarations;
use network::Rails;
use scan_steps::{Instance, Slots};
use std::alloc::{AllocError, Global};

/// One scan of a network, that adds of each element whether its first place has power.
fn show_circuit(
    alloc: Global,
    rails: &Rails,
    declarations: &Declarations,
    circuit: &Circuit,
    slots: &mut Slots,
    memories: &mut [bool],
    rows: &mut [bool],
    links: &mut [bool],
    results: &mut [Instance],
    dt: u32,
    shown: &mut Vec<bool>,
) -> Result<(), AllocError>
    requires circuit { IsCircuit declarations.now (circuit_diagram rails.now circuit.now) circuit.now }
    requires shape { HasShape circuit.now }
    requires slots { AreSlotsOf declarations.now slots.old }
    requires memories { length memories.old ≡ length circuit.now.elements.items }
    requires rows { length rows.old ≡ circuit.now.rows }
    requires links { length links.old ≡ length circuit.now.coils.items }
    requires results { length results.old ≡ length circuit.now.boxes.items }
    ensures slots { OnOk result (AreSlotsOf declarations.now slots.new) }
    ensures shown { OnOk result ((told : List Bool) × (shown.new.items ≡ shown.old.items ++ told)
        × ShowsNetwork declarations.now (circuit_diagram rails.now circuit.now) dt
        (moment slots.old memories.old) (moment slots.new memories.new) told) }
{
    let power = power_of(alloc, rails, declarations, circuit, slots, memories, dt)?;
    scan_circuit(circuit, slots, memories, rows, links, results, dt);
    shown.extend_from_slice(power.as_slice())?;
    Ok(())
}

/// One scan of the networks, one after the other, that adds of each element whether its first place has power.
fn show_circuits(
    alloc: Global,
    rails: &Rails,
    declarations: &Declarations,
    circuits: &[Circuit],
    slots: &mut Slots,
    memories: &mut [bool],
    rows: &mut [bool],
    links: &mut [bool],
    results: &mut [Instance],
    dt: u32,
    shown: &mut Vec<bool>,
) -> Result<(), AllocError>
    requires circuits { AreCircuits declarations.now rails.now circuits.now }
    requires room { AllByRecursion (HasRoom (length rows.old) (length links.old) (length results.old)) circuits.now }
    requires slots { AreSlotsOf declarations.now slots.old }
    requires memories { length memories.old ≡ sum_by (λ c. length c.elements.items) circuits.now }
    ensures { OnOk result ((told : List Bool) × (shown.new.items ≡ shown.old.items ++ told)
        × ShowsPower declarations.now dt (map (circuit_diagram rails.now) circuits.now)
        slots.old memories.old slots.new memories.new told) }
{
    if let Some((first, rest)) = circuits.split_first() {
        let elements = first.elements.len();
        let coils = first.coils.len();
        let boxes = first.boxes.len();
        let (here, later) = memories.split_at_mut(elements);
        show_circuit(
            alloc,
            rails,
            declarations,
            first,
            slots,
            here,
            &mut rows[..first.rows],
            &mut links[..coils],
            &mut results[..boxes],
            dt,
            shown,
        )?;
        show_circuits(
            alloc,
            rails,
            declarations,
            rest,
            slots,
            later,
            rows,
            links,
            results,
            dt,
            shown,
        )?;
    }
    Ok(())
}

impl State {
    /// One scan of these networks, and of each element whether its first place has power in it.
    pub(crate) fn show(
        &mut self,
        alloc: Global,
        rails: &Rails,
        declarations: &Declarations,
        circuits: &[Circuit],
        dt: u32,
    ) -> Result<Vec<bool>, AllocError>
        requires circuits { AreCircuits declarations.now rails.now circuits.now }
        requires room { AllByRecursion (HasRoom 200 self.old.waiting_links self.old.waiting_results) circuits.now }
        requires slots { AreSlotsOf declarations.now self.old.slots }
        requires memories { length self.old.memories ≡ sum_by (λ c. length c.elements.items) circuits.now }
        ensures shown { IfOk result (λ shown. ShowsPower declarations.now dt
            (map (circuit_diagram rails.now) circuits.now)
            self.old.slots self.old.memories self.new.slots self.new.memories shown.items) }
        ensures memories { length self.new.memories ≡ length self.old.memories }
        ensures links { self.new.waiting_links ≡ self.old.waiting_links }
        ensures results { self.new.waiting_results ≡ self.old.waiting_results }
    {
        let mut shown = Vec::with_capacity(alloc, self.memories.len())?;
        self.all_off = false;
        let mut rows = ArrayVec::<bool, 200>::from([false; 200]);
        show_circuits(
            alloc,
            rails,
            declarations,
            circuits,
            &mut self.slots,
            self.memories.as_mut_slice(),
            rows.as_mut_slice(),
            self.links.as_mut_slice(),
            self.results.as_mut_slice(),
            dt,
            &mut shown,
        )?;
        Ok(shown)
    }
}
