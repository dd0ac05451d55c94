ghost use Rattle.std.specs.Prelude.{◌≡◌, ◌↔◌, ◌≤◌, ◌<◌, ◌+◌, ◌-◌, ◌^◌, ◌++◌, [], ◌∷◌, List, Some, IsTrue, IfOk, OnOk, Contains, slice_get, length, take, None};
ghost use Rattle.std.specs.List.{AllZip};
ghost use Rattle.drawings.specs.declared.place.Place.{Place};
ghost use Rattle.drawings.specs.declared.drawn_box.DrawnPin.{DrawnPin};
ghost use Rattle.network.specs.declared.element.Element.{Element};
ghost use Rattle.drawings.specs.declared.drawn_box.Side.TheVariants.{Left, Right};
ghost use Rattle.network.specs.Links.{Stands, place};
ghost use Rattle.network.specs.Apart.{AreOnPage};
ghost use Rattle.network.specs.GraphValue.{diagram};
ghost use Rattle.scan_steps.specs.declared.step.Step.{Step};
ghost use Rattle.network.specs.GraphValue.{IsSoundNetwork};
ghost use Rattle.power_flow.specs.Steps.Columns.{IsAtRail, IsUpright, StandsIn, Begins, Joins, IsLeftPinBegun, left_pins, joined, contact_step, AreSteps};
ghost use Rattle.power_flow.specs.Steps.RowEnds.{AreRows, AreEndsTo, TellsLed, ArePushed, listed};
ghost use Rattle.power_flow.specs.Waiting.{coils_of, boxes_of};

use crate::binding::source::name_source;
use crate::steps::row_ends::note_element;
use crate::steps::rows::Rows;
use declared_names::Declarations;
use drawings::{Contact, DrawnBox, DrawnPin, Place, Side};
use network::{Element, Rails};
use scan_steps::{BoundContact, Step};
use std::alloc::{AllocError, Global};

/// Whether the left rail stands on the left of a place.
pub fn is_at_rail(rails: &Rails, at: Place) -> bool
    ensures { (elements : List Element) → IsTrue result ↔ IsAtRail (diagram rails.now elements) at }
{
    let left = Place {
        column: at.column.saturating_sub(1),
        ..at
    };
    left.column < at.column && rails.has(left)
}

/// The row of a network, counted from its topmost row.
fn row_below(top: usize, row: usize) -> u8
    requires { row - top < 256 }
    ensures { result ≡ row - top }
{
    row.saturating_sub(top) as u8
}

/// How the state of a row begins at a place: nothing where it goes on from the left.
fn beginning(rails: &Rails, ends: &[usize], top: usize, at: Place) -> Option<Step>
    requires row { at.row - top < length ends.now }
    requires low { length ends.now ≤ 200 }
    ensures { (elements : List Element) → TellsLed (diagram rails.now elements) top ends.now at
        → Begins (diagram rails.now elements) top at (listed result) }
{
    let row = row_below(top, at.row);
    if at.column > 0 && ends[row as usize] == at.column {
        return None;
    }
    if is_at_rail(rails, at) {
        Some(Step::Rail(row))
    } else {
        Some(Step::Off(row))
    }
}

/// Whether the element with this number is an upright at a place.
pub fn stands_at(elements: &[Element], k: usize, at: Place) -> bool
    ensures { IsTrue result ↔ (e : Element) × (slice_get elements.now k ≡ Some e) × Stands e at }
{
    match elements.get(k) {
        Some(element) => element.stands_at(at),
        None => false,
    }
}

/// The topmost row of the upright that stands at a place; its places come one after the other.
fn first_row(elements: &[Element], k: usize, at: Place) -> usize
    requires { (e : Element) × (slice_get elements.now k ≡ Some e) × Stands e at }
    ensures above { result ≤ at.row }
    ensures upright { (rails : List Place) → IsSoundNetwork (diagram rails elements.now)
        → (StandsIn (diagram rails elements.now) (at.row + 1) at.column → ⊥)
        → IsUpright (diagram rails elements.now) at.column result at.row }
{
    let mut number = k;
    let mut row = at.row;
    while number > 0 && row > 0 && stands_at(elements, number - 1, Place { row: row - 1, ..at }) {
        number -= 1;
        row -= 1;
    }
    row
}

/// The rows that an upright joins, at its lowest place.
fn joining(elements: &[Element], k: usize, top: usize, at: Place) -> Option<Step>
    requires stands { (e : Element) × (slice_get elements.now k ≡ Some e) × Stands e at }
    requires page { AreOnPage elements.now }
    requires fits { k + 1 < 2 ^ 64 }
    requires low { at.row - top < 256 }
    ensures { (rails : List Place) → IsSoundNetwork (diagram rails elements.now)
        → Joins (diagram rails elements.now) top at (listed result) }
{
    let below = Place {
        row: at.row + 1,
        ..at
    };
    if stands_at(elements, k + 1, below) {
        return None;
    }
    let first = first_row(elements, k, at);
    Some(Step::Upright(row_below(top, first), row_below(top, at.row)))
}

/// Adds a step, if there is one.
fn push_step(steps: &mut Vec<Step>, step: Option<Step>) -> Result<(), AllocError>
    ensures { OnOk result (steps.new.items ≡ steps.old.items ++ listed step) }
{
    if let Some(step) = step {
        steps.push(step)?;
    }
    Ok(())
}

/// How the state in the row of a pin begins: nothing for a pin of the right side, or for one with an operand.
fn pin_beginning(
    rails: &Rails,
    ends: &[usize],
    top: usize,
    drawn: &DrawnBox,
    pin: &DrawnPin,
) -> Option<Step>
    requires row { pin.now.row - top < length ends.now }
    requires low { length ends.now ≤ 200 }
    ensures left { (elements : List Element) → let d = diagram rails.now elements in
        TellsLed d top ends.now (place pin.now.row drawn.now.left) → pin.now.side ≡ Left
        → IsLeftPinBegun d top drawn.now pin.now (listed result) }
    ensures right { pin.now.side ≡ Right → result ≡ None }
{
    match pin.side {
        Side::Right => None,
        Side::Left => match &pin.operand {
            Some(_) => None,
            None => beginning(
                rails,
                ends,
                top,
                Place {
                    row: pin.row,
                    column: drawn.left,
                },
            ),
        },
    }
}

/// Adds how the states on the left side of a box begin.
fn push_pins(
    steps: &mut Vec<Step>,
    rails: &Rails,
    ends: &[usize],
    top: usize,
    drawn: &DrawnBox,
) -> Result<(), AllocError>
    requires rows { (pin : DrawnPin) → Contains drawn.now.pins pin → pin.row - top < length ends.now }
    requires low { length ends.now ≤ 200 }
    ensures { OnOk result ((elements : List Element) → let d = diagram rails.now elements in
        ((pin : DrawnPin) → Contains drawn.now.pins pin → pin.side ≡ Left
        → TellsLed d top ends.now (place pin.row drawn.now.left))
        → (begins : List (List Step)) × AllZip (IsLeftPinBegun d top drawn.now) (left_pins drawn.now.pins) begins
        × (steps.new.items ≡ steps.old.items ++ joined begins)) }
{
    for pin in drawn.pins.as_slice() {
        push_step(steps, pin_beginning(rails, ends, top, drawn, pin))?;
    }
    Ok(())
}

/// How many coils and boxes come before an element.
#[derive(Clone, Copy)]
pub struct Numbers {
    pub coils: usize,
    pub boxes: usize,
}

impl Numbers {
    /// How many come before the next element.
    pub fn after(self, element: &Element) -> Numbers
        requires coils { self.coils + 1 < 2 ^ 64 }
        requires boxes { self.boxes + 1 < 2 ^ 64 }
        ensures coils { result.coils ≡ self.coils + length (coils_of (element.now ∷ [])) }
        ensures boxes { result.boxes ≡ self.boxes + length (boxes_of (element.now ∷ [])) }
    {
        match element {
            Element::Coil(_) => Numbers {
                coils: self.coils + 1,
                ..self
            },
            Element::Box(_) => Numbers {
                boxes: self.boxes + 1,
                ..self
            },
            _ => self,
        }
    }
}

/// The step at the contact with the number k. A place that a step has no room for is one for which there is no memory.
fn contact_step(
    declarations: &Declarations,
    contact: &Contact,
    row: u8,
    k: usize,
) -> Result<Step, AllocError>
    requires { k < 2 ^ 32 }
    ensures { IfOk result (λ s. s ≡ contact_step declarations.now contact.now row k) }
{
    let source = name_source(declarations, &contact.name);
    match BoundContact::new(contact.kind, row, source, k as u32) {
        Some(bound) => Ok(Step::Contact(bound)),
        None => Err(AllocError),
    }
}

/// Adds the steps at the element with the number k.
pub fn push_element(
    steps: &mut Vec<Step>,
    rails: &Rails,
    declarations: &Declarations,
    elements: &[Element],
    ends: &[usize],
    top: usize,
    k: usize,
    numbers: Numbers,
) -> Result<(), AllocError>
    requires within { k < length elements.now }
    requires few { length elements.now < 2 ^ 32 }
    requires sound { IsSoundNetwork (diagram rails.now elements.now) }
    requires rows { AreRows elements.now top (length ends.now) }
    requires low { length ends.now ≤ 200 }
    requires ends { AreEndsTo (diagram rails.now elements.now) top k ends.now }
    requires coils { numbers.coils ≡ length (coils_of (take k elements.now)) }
    requires boxes { numbers.boxes ≡ length (boxes_of (take k elements.now)) }
    ensures { OnOk result (ArePushed declarations.now (diagram rails.now elements.now) top k
        steps.old.items steps.new.items) }
{
    let element = &elements[k];
    let at = element.first_place();
    let row = row_below(top, at.row);
    match element {
        Element::Wire(_) => {
            push_step(steps, beginning(rails, ends, top, at))?;
            Ok(())
        }
        Element::Join(_) => {
            push_step(steps, beginning(rails, ends, top, at))?;
            push_step(steps, joining(elements, k, top, at))?;
            Ok(())
        }
        Element::Upright(_) => {
            steps.push(Step::Off(row))?;
            push_step(steps, joining(elements, k, top, at))?;
            Ok(())
        }
        Element::Contact(contact) => {
            push_step(steps, beginning(rails, ends, top, at))?;
            let step = contact_step(declarations, contact, row, k)?;
            steps.push(step)?;
            Ok(())
        }
        Element::Coil(_) => {
            push_step(steps, beginning(rails, ends, top, at))?;
            steps.push(Step::Coil(row, numbers.coils as u32))?;
            Ok(())
        }
        Element::Box(boxed) => {
            push_pins(steps, rails, ends, top, boxed.drawn())?;
            steps.push(Step::Box(numbers.boxes as u32))?;
            Ok(())
        }
    }
}

/// Adds the steps of all elements.
fn push_elements(
    steps: &mut Vec<Step>,
    rails: &Rails,
    declarations: &Declarations,
    elements: &[Element],
    ends: &mut [usize],
    top: usize,
) -> Result<(), AllocError>
    requires sound { IsSoundNetwork (diagram rails.now elements.now) }
    requires few { length elements.now < 2 ^ 32 }
    requires rows { AreRows elements.now top (length ends.old) }
    requires low { length ends.old ≤ 200 }
    requires ends { AreEndsTo (diagram rails.now elements.now) top 0 ends.old }
    requires steps { steps.old.items ≡ [] }
    ensures { OnOk result (AreSteps declarations.now (diagram rails.now elements.now) top steps.new.items) }
{
    let mut numbers = Numbers { coils: 0, boxes: 0 };
    for k in 0..elements.len() {
        push_element(steps, rails, declarations, elements, ends, top, k, numbers)?;
        note_element(ends, top, elements, k);
        numbers = numbers.after(&elements[k]);
    }
    Ok(())
}

/// The steps of a scan through the columns of a network.
pub fn steps_of(
    alloc: Global,
    rails: &Rails,
    declarations: &Declarations,
    elements: &[Element],
    rows: Rows,
) -> Result<Vec<Step>, AllocError>
    requires sound { IsSoundNetwork (diagram rails.now elements.now) }
    requires rows { AreRows elements.now rows.top rows.count }
    requires low { rows.count ≤ 200 }
    ensures { IfOk result (λ steps. AreSteps declarations.now (diagram rails.now elements.now) rows.top steps.items) }
{
    let mut ends = vec![in alloc; 0usize; rows.count]?;
    let mut steps = Vec::new(alloc);
    push_elements(
        &mut steps,
        rails,
        declarations,
        elements,
        ends.as_mut_slice(),
        rows.top,
    )?;
    Ok(steps)
}
