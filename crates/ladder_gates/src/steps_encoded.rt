ghost use Rattle.std.specs.Prelude.{◌≡◌, ◌<◌, ℕ, Bool, All, OnOk, length};
ghost use Rattle.gates.specs.Gates.{IsBuilt};
ghost use Rattle.gate_words.specs.Values.{time_at};
ghost use Rattle.scan_steps.specs.Steps.Passing.{IsStepIn};
ghost use Rattle.scan_gates.specs.Encoded.{bits_at, slots_at};
ghost use Rattle.ladder_gates.specs.Steps.StepsScanned.{AreScanned};

use crate::box_stores::store_boxes;
use crate::coil_stores::store_coils;
use gates::{Gates, Signal};
use scan_gates::{EncodedInstance, EncodedSlot, TimeWord, pass_signals};
use scan_steps::{BoundBox, BoundCoil, Step};
use std::alloc::{AllocError, Global};

/// One scan of a network by its steps, in these places for its rows, links and results.
fn scan_in(
    alloc: Global,
    gates: &mut Gates,
    steps: &[Step],
    boxes: &[BoundBox],
    coils: &[BoundCoil],
    dt: &TimeWord,
    slots: &mut [EncodedSlot],
    memories: &mut [Signal],
    rows: &mut [Signal],
    links: &mut [Signal],
    results: &mut [EncodedInstance],
) -> Result<(), AllocError>
    requires steps { All
        (λ s. IsStepIn (length rows.old) (length memories.old) (length coils.now) (length boxes.now) s) steps.now }
    requires outputs { All (λ e. All (λ o. o.row < length rows.old) e.outputs.items) boxes.now }
    requires coils { All (λ c. c.memory < length memories.old) coils.now }
    requires links { length links.old ≡ length coils.now }
    requires results { length results.old ≡ length boxes.now }
    ensures { OnOk result (IsBuilt gates.old gates.new (λ v.
        AreScanned boxes.now coils.now steps.now (length rows.old) (time_at v dt.now) (slots_at v slots.old)
        (bits_at v memories.old) (slots_at v slots.new) (bits_at v memories.new))) }
{
    pass_signals(
        alloc, gates, steps, boxes, slots, dt, rows, memories, links, results,
    )?;
    store_boxes(gates, boxes, results, slots);
    store_coils(gates, coils, links, memories, slots)?;
    Ok(())
}

/// One scan of a network of so many rows by its steps: these are passed, and then its boxes and its coils store.
pub fn encode_steps(
    alloc: Global,
    gates: &mut Gates,
    steps: &[Step],
    boxes: &[BoundBox],
    coils: &[BoundCoil],
    dt: &TimeWord,
    rows: usize,
    slots: &mut [EncodedSlot],
    memories: &mut [Signal],
) -> Result<(), AllocError>
    requires steps { All (λ s. IsStepIn rows (length memories.old) (length coils.now) (length boxes.now) s) steps.now }
    requires outputs { All (λ e. All (λ o. o.row < rows) e.outputs.items) boxes.now }
    requires coils { All (λ c. c.memory < length memories.old) coils.now }
    ensures { OnOk result (IsBuilt gates.old gates.new (λ v.
        AreScanned boxes.now coils.now steps.now rows (time_at v dt.now) (slots_at v slots.old) (bits_at v memories.old)
        (slots_at v slots.new) (bits_at v memories.new))) }
{
    let off = gates.constant(false);
    let mut column = vec![in alloc; off; rows]?;
    let mut links = vec![in alloc; off; coils.len()]?;
    let mut results = vec![in alloc; EncodedInstance::SR(off); boxes.len()]?;
    scan_in(
        alloc,
        gates,
        steps,
        boxes,
        coils,
        dt,
        slots,
        memories,
        &mut column,
        &mut links,
        &mut results,
    )
}
