ghost use Rattle.std.specs.Prelude.{◌≡◌, false};
ghost use Rattle.power_flow.specs.Steps.Edges.{is_edge, AreEdgeless, AreEdgelessCircuits};

use crate::steps::circuit::Circuit;
use drawings::{CoilKind, ContactKind};
use network::Element;

/// Whether an element is a contact or a coil of an edge. No other keeps a memory.
fn is_edge(element: &Element) -> bool
    ensures { result ≡ is_edge element.now }
{
    match element {
        Element::Contact(contact) => matches!(contact.kind, ContactKind::Rise | ContactKind::Fall),
        Element::Coil(coil) => matches!(coil.kind, CoilKind::Rise | CoilKind::Fall),
        Element::Wire(_) | Element::Join(_) | Element::Upright(_) | Element::Box(_) => false,
    }
}

/// Whether any element is one of an edge.
fn is_any_edge(elements: &[Element]) -> bool
    ensures { result ≡ false → AreEdgeless elements.now }
{
    for element in elements {
        if is_edge(element) {
            return true;
        }
    }
    false
}

/// Whether any circuit has an edge.
pub fn have_edges(circuits: &[Circuit]) -> bool
    ensures { result ≡ false → AreEdgelessCircuits circuits.now }
{
    for circuit in circuits {
        if is_any_edge(&circuit.elements) {
            return true;
        }
    }
    false
}
