use crate::element_box::ElementBox;
use drawings::{Coil, Contact, Place};

/// A graphic element outside the rails. Each takes 48 bytes, since a box lies apart.
#[derive(Drop)]
pub enum Element {
    Wire(Place),
    Join(Place),
    Upright(Place),
    Contact(Contact),
    Coil(Coil),
    Box(ElementBox),
}

impl Element {
    ghost use Rattle.std.specs.Prelude.{◌≡◌, ◌↔◌, IsTrue};
    ghost use Rattle.network.specs.Links.{Stands};
    ghost use Rattle.network.specs.Apart.{first_place};

    /// The place itself, the first place of a symbol, or the top left corner of a box.
    pub fn first_place(&self) -> Place
        ensures { result ≡ first_place self.now }
    {
        match self {
            Element::Wire(at) | Element::Join(at) | Element::Upright(at) => *at,
            Element::Contact(contact) => Place {
                row: contact.row,
                column: contact.column,
            },
            Element::Coil(coil) => Place {
                row: coil.row,
                column: coil.column,
            },
            Element::Box(boxed) => {
                let drawn = boxed.drawn();
                Place {
                    row: drawn.top,
                    column: drawn.left,
                }
            }
        }
    }

    /// Whether this is a place of an upright.
    pub fn stands_at(&self, place: Place) -> bool
        ensures { IsTrue result ↔ Stands self.now place }
    {
        match self {
            Element::Join(at) | Element::Upright(at) => *at == place,
            _ => false,
        }
    }
}
