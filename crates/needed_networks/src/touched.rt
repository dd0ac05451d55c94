//! What networks read and change, as lists of places.

use crate::places::{place_of, read_place};
use declared_names::Declarations;
use drawings::{DrawnBox, DrawnPin, Side};
use network::Element;
use power_flow::Ladder;
use std::alloc::{AllocError, Global};

/// The places of what a network reads, and of what it changes.
#[derive(Drop)]
pub(crate) struct Touched {
    pub(crate) reads: Vec<usize>,
    pub(crate) changes: Vec<usize>,
}

fn push_place(places: &mut Vec<usize>, place: Option<usize>) -> Result<(), AllocError> {
    if let Some(place) = place {
        places.push(place)?;
    }
    Ok(())
}

impl Touched {
    fn note_pin(&mut self, declarations: &Declarations, pin: &DrawnPin) -> Result<(), AllocError> {
        match (pin.side, &pin.operand) {
            (_, None) => Ok(()),
            (Side::Left, Some(operand)) => push_place(
                &mut self.reads,
                read_place(declarations, &operand.text),
            ),
            (Side::Right, Some(operand)) => push_place(
                &mut self.changes,
                place_of(declarations, &operand.text),
            ),
        }
    }

    fn note_box(
        &mut self,
        declarations: &Declarations,
        drawn: &DrawnBox,
    ) -> Result<(), AllocError> {
        push_place(&mut self.changes, place_of(declarations, &drawn.instance))?;
        for pin in drawn.pins.as_slice() {
            self.note_pin(declarations, pin)?;
        }
        Ok(())
    }

    fn note_element(
        &mut self,
        declarations: &Declarations,
        element: &Element,
    ) -> Result<(), AllocError> {
        match element {
            Element::Wire(_) | Element::Join(_) | Element::Upright(_) => Ok(()),
            Element::Contact(contact) => push_place(
                &mut self.reads,
                read_place(declarations, &contact.name),
            ),
            Element::Coil(coil) => push_place(
                &mut self.changes,
                place_of(declarations, &coil.name),
            ),
            Element::Box(boxed) => self.note_box(declarations, boxed.drawn()),
        }
    }

    /// What the elements of a network read and change.
    fn of(
        alloc: Global,
        declarations: &Declarations,
        elements: &[Element],
    ) -> Result<Self, AllocError> {
        let mut touched = Touched {
            reads: Vec::new(alloc),
            changes: Vec::new(alloc),
        };
        for element in elements {
            touched.note_element(declarations, element)?;
        }
        Ok(touched)
    }
}

/// What each network of a ladder reads and changes.
pub(crate) fn all_touched(alloc: Global, ladder: &Ladder) -> Result<Vec<Touched>, AllocError> {
    let mut networks = Vec::new(alloc);
    for k in 0..usize::MAX {
        let Some(elements) = ladder.elements(k) else {
            break;
        };
        networks.push(Touched::of(alloc, ladder.declarations(), elements)?)?;
    }
    Ok(networks)
}
