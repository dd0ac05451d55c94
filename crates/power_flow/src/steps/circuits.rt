ghost use Rattle.std.specs.Prelude.{◌≡◌, ◌⊎◌, ◌↔◌, [], All, IfOk, IsTrue, Some};
ghost use Rattle.network.specs.declared.element.Element.{Element};
ghost use Rattle.network.specs.GraphValue.{diagram};
ghost use Rattle.network.specs.GraphValue.{IsSoundNetwork};
ghost use Rattle.name_faults.specs.Steps.Named.{AreNamed};
ghost use Rattle.power_flow.specs.Steps.Circuit.{HasShape, IsCircuit, AreCircuits, AreSoundNetworks, all_elements, circuit_diagrams, bound_coil, bound_coils};
ghost use Rattle.power_flow.specs.declared.steps.circuit.Circuit.{Circuit};

use crate::binding::box_binding::bind_boxes;
use crate::steps::circuit::Circuit;
use crate::steps::fused::fused;
use crate::steps::lone_rung::lone_rung;
use crate::steps::rows::Rows;
use crate::steps::steps::steps_of;
use declared_names::{Declarations, names_of_one_place_are_one};
use drawings::Place;
use network::{Element, Network, Rails, are_same_elements, are_same_places};
use scan_steps::BoundCoil;
use std::alloc::{AllocError, Global};

/// The element with the number k, bound if it is a coil.
fn bound_coil(declarations: &Declarations, k: usize, element: &Element) -> Option<BoundCoil>
    ensures { result ≡ bound_coil declarations.now k element.now }
{
    match element {
        Element::Coil(coil) => Some(BoundCoil {
            kind: coil.kind,
            place: declarations.position_of(coil.name.as_bytes()),
            memory: k,
        }),
        _ => None,
    }
}

/// The coils among the elements with their names bound, in their order.
#[tactic(auto, unfolding(crate::specs::Steps::Circuit::bound_coils))]
fn coils_of(
    alloc: Global,
    declarations: &Declarations,
    elements: &[Element],
) -> Result<Vec<BoundCoil>, AllocError>
    ensures { IfOk result (λ coils. coils.items ≡ bound_coils declarations.now elements.now) }
{
    elements
        .iter()
        .enumerate()
        .filter_map(|(k, element)| bound_coil(declarations, k, element))
        .collect(alloc)
}

/// A network made ready for scans.
fn circuit_of(
    alloc: Global,
    rails: &Rails,
    declarations: &Declarations,
    network: Network,
) -> Result<Circuit, AllocError>
    requires { IsSoundNetwork (diagram rails.now network) }
    ensures elements { IfOk result (λ c. c.elements.items ≡ network) }
    ensures circuit { IfOk result (λ c. AreNamed declarations.now network
        → IsCircuit declarations.now (diagram rails.now network) c) }
    ensures shape { IfOk result (λ c. HasShape c) }
{
    let elements = network.into_elements();
    let rows = Rows::of(&elements);
    let plain = steps_of(alloc, rails, declarations, &elements, rows)?;
    let coils = coils_of(alloc, declarations, &elements)?;
    let boxes = bind_boxes(alloc, declarations, rows.top, &elements)?;
    names_of_one_place_are_one();
    let steps = fused(alloc, plain)?;
    let rung = lone_rung(alloc, declarations, &steps, &coils, &boxes)?;
    Ok(Circuit {
        elements,
        rung,
        rows: rows.count,
        steps,
        coils,
        boxes,
    })
}

/// The circuits of the networks in order.
pub fn circuits_of(
    alloc: Global,
    rails: &[Place],
    declarations: &Declarations,
    networks: Vec<Network>,
) -> Result<Vec<Circuit>, AllocError>
    requires { AreSoundNetworks rails.now networks.items }
    ensures elements { IfOk result (λ circuits. all_elements circuits.items ≡ networks.items) }
    ensures circuits { IfOk result (λ circuits. All (AreNamed declarations.now) networks.items
        → AreCircuits declarations.now rails.now circuits.items) }
    ensures shape { IfOk result (λ circuits. All HasShape circuits.items) }
{
    let rails = Rails::new(alloc, rails)?;
    let mut circuits = Vec::with_capacity(alloc, networks.len())?;
    for network in networks {
        let circuit = circuit_of(alloc, &rails, declarations, network)?;
        circuits.push(circuit)?;
    }
    Ok(circuits)
}

/// Whether the circuits of two lists are made of the same elements.
fn have_same_elements(circuits: &[Circuit], others: &[Circuit]) -> bool
    ensures { IsTrue result ↔ (all_elements circuits.now ≡ all_elements others.now) }
{
    if circuits.len() != others.len() {
        return false;
    }
    for i in 0..circuits.len() {
        if !are_same_elements(&circuits[i].elements, &others[i].elements) {
            return false;
        }
    }
    true
}

/// Whether there is no circuit, or the places of the left rail are the same.
fn have_same_rails(circuits: &[Circuit], rails: &[Place], other_rails: &[Place]) -> bool
    ensures { IsTrue result ↔ ((circuits.now ≡ []) ⊎ (rails.now ≡ other_rails.now)) }
{
    circuits.is_empty() || are_same_places(rails, other_rails)
}

/// Whether the circuits of two lists are those of the same networks, each list with the places of its left rail.
pub fn are_same_networks(
    rails: &[Place],
    circuits: &[Circuit],
    other_rails: &[Place],
    others: &[Circuit],
) -> bool
    ensures { IsTrue result ↔ (circuit_diagrams rails.now circuits.now ≡ circuit_diagrams other_rails.now others.now) }
{
    have_same_rails(circuits, rails, other_rails) && have_same_elements(circuits, others)
}
