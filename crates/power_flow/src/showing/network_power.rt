ghost use Rattle.std.specs.Prelude.{◌≡◌, List, IfOk, length};
ghost use Rattle.network.specs.GraphValue.{diagram};
ghost use Rattle.scan_steps.specs.declared.slot.Slot.{Slot};
ghost use Rattle.scan_steps.specs.Slots.{AreSlotsOf};
ghost use Rattle.power_flow.specs.Meaning.{AreLinks, BlocksStep, moment};
ghost use Rattle.power_flow.specs.Steps.Circuit.{IsCircuit};

use crate::binding::box_binding::bind_boxes;
use crate::showing::comings::read_elements;
use crate::showing::uprights::join_uprights;
use crate::steps::circuit::Circuit;
use crate::steps::rows::Rows;
use declared_names::{Declarations, names_of_one_place_are_one};
use network::Rails;
use scan_steps::{Instance, Slots};
use std::alloc::{AllocError, Global};
use std_blocks::BlockType;

/// Whether the first place of each element of a network has power in a scan from these slots and memories.
pub fn power_of(
    alloc: Global,
    rails: &Rails,
    declarations: &Declarations,
    circuit: &Circuit,
    slots: &Slots,
    memories: &[bool],
    dt: u32,
) -> Result<Vec<bool>, AllocError>
    requires circuit { IsCircuit declarations.now (diagram rails.now circuit.now.elements.items) circuit.now }
    requires slots { AreSlotsOf declarations.now slots.now }
    requires memories { length memories.now ≡ length circuit.now.elements.items }
    ensures { IfOk result (λ power. (between : List Slot)
        → BlocksStep declarations.now (diagram rails.now circuit.now.elements.items) dt
        (moment slots.now memories.now) between
        → AreLinks declarations.now (diagram rails.now circuit.now.elements.items)
        (moment slots.now memories.now) between power.items) }
{
    let elements = circuit.elements.as_slice();
    let rows = Rows::of(elements);
    let boxes = bind_boxes(alloc, declarations, rows.top, elements)?;
    names_of_one_place_are_one();
    let mut steps = Vec::new(alloc);
    let mut comings = Vec::with_capacity(alloc, elements.len())?;
    let mut states = vec![in alloc; false; rows.count]?;
    let mut read = Vec::from_slice(alloc, memories)?;
    let mut links = vec![in alloc; false; circuit.coils.len()]?;
    let mut results = vec![in alloc; Instance::initial(BlockType::SR); boxes.len()]?;
    let mut ends = vec![in alloc; 0usize; rows.count]?;
    read_elements(
        &mut steps,
        &mut comings,
        rails,
        declarations,
        elements,
        boxes.as_slice(),
        slots,
        states.as_mut_slice(),
        read.as_mut_slice(),
        links.as_mut_slice(),
        results.as_mut_slice(),
        ends.as_mut_slice(),
        rows.top,
        dt,
    )?;
    let power = join_uprights(alloc, elements, comings.as_slice())?;
    Ok(power)
}
