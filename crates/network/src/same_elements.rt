ghost use Rattle.std.specs.Prelude.{◌≡◌, ◌↔◌, IsTrue};

use crate::element::Element;
use drawings::{Coil, Contact, DrawnBox, DrawnPin, Operand, Place};
use lists::are_same;
use words::Text;

fn are_same_texts(text: &Text, other: &Text) -> bool
    ensures { IsTrue result ↔ (text.now ≡ other.now) }
{
    text.as_str() == other.as_str()
}

fn are_same_operands(operand: &Operand, other: &Operand) -> bool
    ensures { IsTrue result ↔ (operand.now ≡ other.now) }
{
    operand.column == other.column && are_same_texts(&operand.text, &other.text)
}

fn are_same_if_any(operand: &Option<Operand>, other: &Option<Operand>) -> bool
    ensures { IsTrue result ↔ (operand.now ≡ other.now) }
{
    match (operand, other) {
        (None, None) => true,
        (Some(operand), Some(other)) => are_same_operands(operand, other),
        _ => false,
    }
}

fn are_same_pins(pin: &DrawnPin, other: &DrawnPin) -> bool
    ensures { IsTrue result ↔ (pin.now ≡ other.now) }
{
    pin.row == other.row
        && pin.side == other.side
        && are_same_texts(&pin.name, &other.name)
        && are_same_if_any(&pin.operand, &other.operand)
}

fn have_same_pins(pins: &[DrawnPin], others: &[DrawnPin]) -> bool
    ensures { IsTrue result ↔ (pins.now ≡ others.now) }
{
    are_same(pins, others, are_same_pins)
}

/// Whether two boxes are drawn alike, at one place.
pub fn are_same_boxes(drawn: &DrawnBox, other: &DrawnBox) -> bool
    ensures { IsTrue result ↔ (drawn.now ≡ other.now) }
{
    drawn.top == other.top
        && drawn.left == other.left
        && drawn.bottom == other.bottom
        && drawn.right == other.right
        && drawn.block == other.block
        && are_same_texts(&drawn.instance, &other.instance)
        && have_same_pins(drawn.pins.as_slice(), other.pins.as_slice())
}

fn are_same_contacts(contact: &Contact, other: &Contact) -> bool
    ensures { IsTrue result ↔ (contact.now ≡ other.now) }
{
    contact.row == other.row
        && contact.column == other.column
        && contact.kind == other.kind
        && are_same_texts(&contact.name, &other.name)
}

fn are_same_coils(coil: &Coil, other: &Coil) -> bool
    ensures { IsTrue result ↔ (coil.now ≡ other.now) }
{
    coil.row == other.row
        && coil.column == other.column
        && coil.kind == other.kind
        && are_same_texts(&coil.name, &other.name)
}

/// Whether two elements are of one kind, at one place, and drawn alike.
fn is_same_element(element: &Element, other: &Element) -> bool
    ensures { IsTrue result ↔ (element.now ≡ other.now) }
{
    match (element, other) {
        (Element::Wire(at), Element::Wire(other)) => at == other,
        (Element::Join(at), Element::Join(other)) => at == other,
        (Element::Upright(at), Element::Upright(other)) => at == other,
        (Element::Contact(contact), Element::Contact(other)) => are_same_contacts(contact, other),
        (Element::Coil(coil), Element::Coil(other)) => are_same_coils(coil, other),
        (Element::Box(boxed), Element::Box(other)) => are_same_boxes(boxed.drawn(), other.drawn()),
        _ => false,
    }
}

/// Whether two lists have the same elements in the same order.
pub fn are_same_elements(elements: &[Element], others: &[Element]) -> bool
    ensures { IsTrue result ↔ (elements.now ≡ others.now) }
{
    are_same(elements, others, is_same_element)
}

/// Whether two lists have the same places in the same order.
pub fn are_same_places(places: &[Place], others: &[Place]) -> bool
    ensures { IsTrue result ↔ (places.now ≡ others.now) }
{
    places == others
}
