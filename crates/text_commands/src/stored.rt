//! Where a ladder stores.

ghost use Rattle.std.specs.Prelude.{◌≡◌, ◌++◌, IfOk, OnOk};
ghost use Rattle.std.specs.List.{flat_map};
ghost use Rattle.power_flow.specs.LadderValue.{diagrams};
ghost use Rattle.text_commands.specs.Stores.{element_places, pin_places, place_list, stored_places};
ghost use Rattle.declared_names.specs.Names.{place_of};

use declared_names::Declarations;
use drawings::{DrawnPin, Side};
use network::{Element, Graph};
use power_flow::Ladder;
use std::alloc::{AllocError, Global};
use words::Text;

fn push_name(
    places: &mut Vec<usize>,
    declarations: &Declarations,
    name: &Text,
) -> Result<(), AllocError>
    ensures { OnOk result (places.new.items ≡ places.old.items ++ place_list (place_of declarations.now name.now)) }
{
    if let Some(place) = declarations.position_of(name.as_bytes()) {
        places.push(place)?;
    }
    Ok(())
}

fn push_pin(
    places: &mut Vec<usize>,
    declarations: &Declarations,
    pin: &DrawnPin,
) -> Result<(), AllocError>
    ensures { OnOk result (places.new.items ≡ places.old.items ++ pin_places declarations.now pin.now) }
{
    match (pin.side, &pin.operand) {
        (Side::Right, Some(operand)) => push_name(places, declarations, &operand.text),
        _ => Ok(()),
    }
}

fn push_pins(
    places: &mut Vec<usize>,
    declarations: &Declarations,
    pins: &[DrawnPin],
) -> Result<(), AllocError>
    ensures { OnOk result (places.new.items ≡ places.old.items ++ flat_map (pin_places declarations.now) pins.now) }
{
    for pin in pins {
        push_pin(places, declarations, pin)?;
    }
    Ok(())
}

fn push_element(
    places: &mut Vec<usize>,
    declarations: &Declarations,
    element: &Element,
) -> Result<(), AllocError>
    ensures { OnOk result (places.new.items ≡ places.old.items ++ element_places declarations.now element.now) }
{
    match element {
        Element::Wire(_) | Element::Join(_) | Element::Upright(_) | Element::Contact(_) => Ok(()),
        Element::Coil(coil) => push_name(places, declarations, &coil.name),
        Element::Box(boxed) => push_pins(places, declarations, boxed.drawn().pins.as_slice()),
    }
}

fn push_elements(
    places: &mut Vec<usize>,
    declarations: &Declarations,
    elements: &[Element],
) -> Result<(), AllocError>
    ensures { OnOk result
        (places.new.items ≡ places.old.items ++ flat_map (element_places declarations.now) elements.now) }
{
    for element in elements {
        push_element(places, declarations, element)?;
    }
    Ok(())
}

/// The places at which the networks of a graph store, each as often as it is stored at.
pub fn stored_places(
    alloc: Global,
    declarations: &Declarations,
    graph: &Graph,
) -> Result<Vec<usize>, AllocError>
    ensures { IfOk result (λ places. places.items ≡ stored_places declarations.now (diagrams graph.now)) }
{
    let mut places = Vec::new(alloc);
    for network in graph.networks() {
        push_elements(&mut places, declarations, network.elements())?;
    }
    Ok(places)
}

/// The places at which the networks of a ladder store, each as often as it is stored at.
pub fn ladder_places(alloc: Global, ladder: &Ladder) -> Result<Vec<usize>, AllocError>
    ensures { IfOk result (λ places. places.items ≡ stored_places ladder.now.declarations ladder.now.networks) }
{
    let mut places = Vec::new(alloc);
    for network in 0..usize::MAX {
        let Some(elements) = ladder.elements(network) else {
            return Ok(places);
        };
        push_elements(&mut places, ladder.declarations(), elements)?;
    }
    // So many networks are in no memory.
    Err(AllocError)
}
