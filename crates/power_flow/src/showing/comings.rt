ghost use Rattle.std.specs.Prelude.{◌≡◌, ◌-◌, ◌<◌, ◌≤◌, ◌^◌, List, [], All, OnOk, length};
ghost use Rattle.network.specs.declared.element.Element.{Element};
ghost use Rattle.drawings.specs.declared.place.Place.{Place};
ghost use Rattle.network.specs.Apart.{first_place};
ghost use Rattle.network.specs.GraphValue.{IsSoundNetwork, diagram};
ghost use Rattle.scan_steps.specs.Steps.Passing.{pass_of};
ghost use Rattle.power_flow.specs.Steps.RowEnds.{AreRows, AreEndsTo, TellsLed};
ghost use Rattle.power_flow.specs.Steps.Comings.{IsComing, IsComingTo, AreReadTo};
ghost use Rattle.power_flow.specs.Waiting.{boxes_of, coils_of};

use crate::steps::row_ends::note_element;
use crate::steps::steps::{Numbers, is_at_rail, push_element};
use declared_names::Declarations;
use drawings::Place;
use network::{Element, Rails};
use scan_steps::{BoundBox, Instance, Slots, Step, pass};
use std::alloc::AllocError;

/// Whether state comes to a place from its left: it goes on in its row, or comes from the left rail.
fn comes(rails: &Rails, ends: &[usize], top: usize, at: Place, rows: &[bool]) -> bool
    requires row { at.row - top < length ends.now }
    requires states { length rows.now ≡ length ends.now }
    ensures { (elements : List Element) → TellsLed (diagram rails.now elements) top ends.now at
        → IsComing (diagram rails.now elements) top rows.now at result }
{
    let row = at.row.saturating_sub(top);
    if at.column > 0 && ends[row] == at.column {
        return rows[row];
    }
    is_at_rail(rails, at)
}

/// Whether state comes to the first place of an element from its left: never to an upright, nor to the corner of a box.
fn comes_to(element: &Element, rails: &Rails, ends: &[usize], top: usize, rows: &[bool]) -> bool
    requires row { (first_place element.now).row - top < length ends.now }
    requires states { length rows.now ≡ length ends.now }
    ensures { (elements : List Element) → TellsLed (diagram rails.now elements) top ends.now (first_place element.now)
        → IsComingTo (diagram rails.now elements) top rows.now element.now result }
{
    match element {
        Element::Wire(at) => comes(rails, ends, top, *at, rows),
        Element::Join(at) => comes(rails, ends, top, *at, rows),
        Element::Upright(_) => false,
        Element::Contact(_) => comes(rails, ends, top, element.first_place(), rows),
        Element::Coil(_) => comes(rails, ends, top, element.first_place(), rows),
        Element::Box(_) => false,
    }
}

/// Passes the elements of a network one after the other, as a scan does, and tells of each before it is passed
/// whether state comes to its first place.
pub fn read_elements(
    steps: &mut Vec<Step>,
    comings: &mut Vec<bool>,
    rails: &Rails,
    declarations: &Declarations,
    elements: &[Element],
    boxes: &[BoundBox],
    slots: &Slots,
    rows: &mut [bool],
    memories: &mut [bool],
    links: &mut [bool],
    results: &mut [Instance],
    ends: &mut [usize],
    top: usize,
    dt: u32,
) -> Result<(), AllocError>
    requires sound { IsSoundNetwork (diagram rails.now elements.now) }
    requires few { length elements.now < 2 ^ 32 }
    requires rows { AreRows elements.now top (length ends.old) }
    requires low { length ends.old ≤ 200 }
    requires ends { AreEndsTo (diagram rails.now elements.now) top 0 ends.old }
    requires steps { steps.old.items ≡ [] }
    requires comings { comings.old.items ≡ [] }
    requires states { length rows.old ≡ length ends.old }
    requires memories { length memories.old ≡ length elements.now }
    requires links { length links.old ≡ length (coils_of elements.now) }
    requires boxes { length boxes.now ≡ length (boxes_of elements.now) }
    requires results { length results.old ≡ length boxes.now }
    requires outputs { All (λ e. All (λ o. o.row < length rows.old) e.outputs.items) boxes.now }
    ensures { OnOk result (AreReadTo declarations.now (diagram rails.now elements.now) top boxes.now slots.now dt
        (length elements.now) steps.new.items comings.new.items
        (pass_of rows.old memories.old links.old results.old) (pass_of rows.new memories.new links.new results.new)) }
{
    let mut numbers = Numbers { coils: 0, boxes: 0 };
    for k in 0..elements.len() {
        let from = steps.len();
        push_element(steps, rails, declarations, elements, ends, top, k, numbers)?;
        let coming = comes_to(&elements[k], rails, ends, top, rows);
        comings.push(coming)?;
        pass(
            &steps[from..],
            boxes,
            slots,
            rows,
            memories,
            links,
            results,
            dt,
        );
        note_element(ends, top, elements, k);
        numbers = numbers.after(&elements[k]);
    }
    Ok(())
}
