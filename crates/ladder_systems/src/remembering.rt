//! Which elements remember anything from scan to scan.

ghost use Rattle.std.specs.Prelude.{◌≡◌, ◌++◌, IfOk, OnOk, map};
ghost use Rattle.std.specs.List.{flat_map};
ghost use Rattle.network.specs.Links.{Diagram};
ghost use Rattle.power_flow.specs.declared.steps.circuit.Circuit.{Circuit as CircuitRecord};
ghost use Rattle.ladder_systems.specs.Remembering.{is_edge_coil, is_edge_contact, memory_marks, remembers};

use drawings::{CoilKind, ContactKind};
use network::Element;
use power_flow::{Circuit, Ladder};
use std::alloc::{AllocError, Global};

/// Whether a contact of this kind does.
pub fn is_edge_contact(kind: ContactKind) -> bool
    ensures { result ≡ is_edge_contact kind }
{
    match kind {
        ContactKind::Rise | ContactKind::Fall => true,
        ContactKind::Plain | ContactKind::Negated => false,
    }
}

/// Whether a coil of this kind does.
pub fn is_edge_coil(kind: CoilKind) -> bool
    ensures { result ≡ is_edge_coil kind }
{
    match kind {
        CoilKind::Rise | CoilKind::Fall => true,
        CoilKind::Plain | CoilKind::Negated | CoilKind::Set | CoilKind::Reset => false,
    }
}

/// Whether an element does: the contacts and coils of edges.
fn remembers(element: &Element) -> bool
    ensures { result ≡ remembers element.now }
{
    match element {
        Element::Contact(contact) => is_edge_contact(contact.kind),
        Element::Coil(coil) => is_edge_coil(coil.kind),
        Element::Wire(_) | Element::Join(_) | Element::Upright(_) | Element::Box(_) => false,
    }
}

/// Adds the marks of the elements of a network.
fn push_marks(elements: &[Element], marks: &mut Vec<bool>) -> Result<(), AllocError>
    ensures { OnOk result (marks.new.items ≡ marks.old.items ++ map remembers elements.now) }
{
    for element in elements {
        marks.push(remembers(element))?;
    }
    Ok(())
}

/// Adds the marks of the elements of all networks.
fn push_all_marks(circuits: &[Circuit], marks: &mut Vec<bool>) -> Result<(), AllocError>
    ensures { OnOk result (marks.new.items
        ≡ marks.old.items ++ flat_map (λ (c : CircuitRecord). map remembers c.elements.items) circuits.now) }
{
    for circuit in circuits {
        push_marks(&circuit.elements, marks)?;
    }
    Ok(())
}

/// A mark for each memory of a ladder: whether its element remembers anything.
pub(crate) fn memory_marks(alloc: Global, ladder: &Ladder) -> Result<Vec<bool>, AllocError>
    ensures { IfOk result (λ marks. marks.items ≡ memory_marks ladder.now.networks) }
{
    let mut marks = Vec::new(alloc);
    push_all_marks(ladder.circuits(), &mut marks)?;
    Ok(marks)
}
