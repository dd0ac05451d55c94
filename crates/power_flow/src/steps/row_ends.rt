ghost use Rattle.std.specs.Prelude.{◌≡◌, ◌≤◌, ◌<◌, ◌+◌, ◌-◌, ℕ, List, Contains, slice_index, slice_set, length, max};
ghost use Rattle.drawings.specs.declared.place.Place.{Place};
ghost use Rattle.drawings.specs.declared.drawn_box.DrawnPin.{DrawnPin};
ghost use Rattle.drawings.specs.declared.drawn_box.Side.TheVariants.{Right};
ghost use Rattle.network.specs.Links.{Diagram};
ghost use Rattle.network.specs.Apart.{AreOnPage};
ghost use Rattle.network.specs.GraphValue.{diagram};
ghost use Rattle.power_flow.specs.Steps.RowEnds.{AreRows, ArePinRows, AreEndsTo, AreEndsWithin};

use drawings::{DrawnBox, DrawnPin, Place, Side};
use network::Element;

/// Notes that state goes on behind this place.
fn note(ends: &mut [usize], top: usize, at: Place)
    requires row { at.row - top < length ends.old }
    requires column { at.column ≤ 1000 }
    ensures { ends.new ≡ slice_set ends.old (at.row - top) (max (slice_index ends.old (at.row - top)) (at.column + 1)) }
{
    let row = at.row.saturating_sub(top);
    ends[row] = ends[row].max(at.column + 1);
}

/// Notes where the right side of a box gives state.
fn note_pins(ends: &mut [usize], top: usize, drawn: &DrawnBox)
    requires rows { ArePinRows drawn.now.pins top (length ends.old) }
    requires column { (pin : DrawnPin) → Contains drawn.now.pins pin → pin.side ≡ Right → drawn.now.right ≤ 1000 }
    ensures ends { (d : Diagram) (k : ℕ) → AreEndsTo d top k ends.old
        → AreEndsWithin d top k drawn.now (length drawn.now.pins) ends.new }
    ensures long { length ends.new ≡ length ends.old }
{
    for pin in drawn.pins.as_slice() {
        match pin.side {
            Side::Left => {}
            Side::Right => note(
                ends,
                top,
                Place {
                    row: pin.row,
                    column: drawn.right,
                },
            ),
        }
    }
}

/// Notes where an element gives state.
pub fn note_element(ends: &mut [usize], top: usize, elements: &[Element], k: usize)
    requires within { k < length elements.now }
    requires page { AreOnPage elements.now }
    requires rows { AreRows elements.now top (length ends.old) }
    ensures ends { (rails : List Place) → AreEndsTo (diagram rails elements.now) top k ends.old
        → AreEndsTo (diagram rails elements.now) top (k + 1) ends.new }
    ensures long { length ends.new ≡ length ends.old }
{
    match &elements[k] {
        Element::Wire(at) | Element::Join(at) => note(ends, top, *at),
        Element::Upright(_) => {}
        Element::Contact(contact) => note(
            ends,
            top,
            Place {
                row: contact.row,
                column: contact.column + 2,
            },
        ),
        Element::Coil(coil) => note(
            ends,
            top,
            Place {
                row: coil.row,
                column: coil.column + 2,
            },
        ),
        Element::Box(boxed) => note_pins(ends, top, boxed.drawn()),
    }
}
