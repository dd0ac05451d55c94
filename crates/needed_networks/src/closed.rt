//! Whether networks can be left out.

ghost use Rattle.std.specs.Prelude.{◌≡◌, ◌↔◌, IsTrue, All};
ghost use Rattle.network.specs.Links.{Diagram};
ghost use Rattle.needed_networks.specs.Needs.{IsClosed, IsPlaced};
ghost use Rattle.needed_networks.specs.Steps.Placing.{BoxIsIdle, BoxMatters, ElementIsIdle, ElementMatters, PinIsIdle, PinMatters};

use crate::places::{has_mark, is_idle, matters, place_of, read_place};
use declared_names::Declarations;
use drawings::{DrawnBox, DrawnPin, Side};
use network::Element;
use power_flow::Ladder;

/// Whether what a pin reads or stores at matters.
fn pin_matters(declarations: &Declarations, idle: &[bool], pin: &DrawnPin) -> bool
    ensures { IsTrue result ↔ PinMatters declarations.now idle.now pin.now }
{
    match (pin.side, &pin.operand) {
        (_, None) => true,
        (Side::Left, Some(operand)) => matters(idle, read_place(declarations, &operand.text)),
        (Side::Right, Some(operand)) => matters(idle, place_of(declarations, &operand.text)),
    }
}

/// Whether what a pin stores at doesn't matter.
fn pin_is_idle(declarations: &Declarations, idle: &[bool], pin: &DrawnPin) -> bool
    ensures { IsTrue result ↔ PinIsIdle declarations.now idle.now pin.now }
{
    match (pin.side, &pin.operand) {
        (_, None) => true,
        (Side::Left, Some(_)) => true,
        (Side::Right, Some(operand)) => is_idle(idle, place_of(declarations, &operand.text)),
    }
}

fn box_matters(declarations: &Declarations, idle: &[bool], drawn: &DrawnBox) -> bool
    ensures { IsTrue result ↔ BoxMatters declarations.now idle.now drawn.now }
{
    let pins = drawn.pins.as_slice();
    matters(idle, place_of(declarations, &drawn.instance))
        && pins.iter().all(|pin| pin_matters(declarations, idle, pin))
}

fn box_is_idle(declarations: &Declarations, idle: &[bool], drawn: &DrawnBox) -> bool
    ensures { IsTrue result ↔ BoxIsIdle declarations.now idle.now drawn.now }
{
    let pins = drawn.pins.as_slice();
    is_idle(idle, place_of(declarations, &drawn.instance))
        && pins.iter().all(|pin| pin_is_idle(declarations, idle, pin))
}

/// Whether all that an element reads and changes matters.
fn element_matters(declarations: &Declarations, idle: &[bool], element: &Element) -> bool
    ensures { IsTrue result ↔ ElementMatters declarations.now idle.now element.now }
{
    match element {
        Element::Wire(_) | Element::Join(_) | Element::Upright(_) => true,
        Element::Contact(contact) => matters(idle, read_place(declarations, &contact.name)),
        Element::Coil(coil) => matters(idle, place_of(declarations, &coil.name)),
        Element::Box(boxed) => box_matters(declarations, idle, boxed.drawn()),
    }
}

/// Whether nothing that an element changes matters.
fn element_is_idle(declarations: &Declarations, idle: &[bool], element: &Element) -> bool
    ensures { IsTrue result ↔ ElementIsIdle declarations.now idle.now element.now }
{
    match element {
        Element::Wire(_) | Element::Join(_) | Element::Upright(_) | Element::Contact(_) => true,
        Element::Coil(coil) => is_idle(idle, place_of(declarations, &coil.name)),
        Element::Box(boxed) => box_is_idle(declarations, idle, boxed.drawn()),
    }
}

/// Whether all that a network reads and changes matters.
fn all_matter(declarations: &Declarations, idle: &[bool], elements: &[Element]) -> bool
    ensures { IsTrue result ↔ All (ElementMatters declarations.now idle.now) elements.now }
{
    elements
        .iter()
        .all(|element| element_matters(declarations, idle, element))
}

/// Whether nothing that a network changes matters.
fn all_are_idle(declarations: &Declarations, idle: &[bool], elements: &[Element]) -> bool
    ensures { IsTrue result ↔ All (ElementIsIdle declarations.now idle.now) elements.now }
{
    elements
        .iter()
        .all(|element| element_is_idle(declarations, idle, element))
}

/// Whether a network can be left out, or kept.
fn is_placed(
    declarations: &Declarations,
    idle: &[bool],
    elements: &[Element],
    omitted: bool,
) -> bool
    ensures { IsTrue result → (d : Diagram) → elements.now ≡ d.elements → IsPlaced declarations.now idle.now d omitted }
{
    if omitted {
        all_are_idle(declarations, idle, elements)
    } else {
        all_matter(declarations, idle, elements)
    }
}

/// Whether all that the networks that aren't left out read and change matters, and nothing that the others change.
pub fn is_closed(ladder: &Ladder, idle: &[bool], omitted: &[bool]) -> bool
    ensures { IsTrue result → IsClosed ladder.now.declarations idle.now omitted.now ladder.now.networks }
{
    for k in 0..usize::MAX {
        let Some(elements) = ladder.elements(k) else {
            return true;
        };
        if !is_placed(ladder.declarations(), idle, elements, has_mark(omitted, k)) {
            return false;
        }
    }
    false
}
