ghost use Rattle.std.specs.Prelude.{◌≡◌, ◌↔◌, IsTrue, Any};
ghost use Rattle.network.specs.Links.{Takes, IsSymbolPlace};
ghost use Rattle.network.specs.Steps.Listed.{element_seen};

use crate::listing::listed::Seen;
use drawings::{DrawnBox, Place, Side};

fn is_symbol_place(first: Place, place: Place) -> bool
    ensures { IsTrue result ↔ IsSymbolPlace first place }
{
    place.row == first.row && first.column <= place.column && place.column - first.column <= 2
}

fn has_pin(drawn: &DrawnBox, side: Side, row: usize) -> bool
    ensures { IsTrue result ↔ Any (λ pin. (pin.side ≡ side) × (pin.row ≡ row)) drawn.now.pins }
{
    drawn
        .pins
        .as_slice()
        .iter()
        .any(|pin| pin.side == side && pin.row == row)
}

/// Whether state passes to this place of the element from the left.
pub fn takes(element: Seen, place: Place) -> bool
    ensures { IsTrue result ↔ Takes (element_seen element.entry) place }
{
    match element {
        Seen::Wire(at) | Seen::Join(at) => at == place,
        Seen::Upright(_) => false,
        Seen::Contact(_) | Seen::Coil(_) => is_symbol_place(element.first_place(), place),
        Seen::Box(drawn) => place.column == drawn.left && has_pin(drawn, Side::Left, place.row),
    }
}
