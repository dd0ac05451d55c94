ghost use Rattle.std.specs.Prelude.{◌≡◌, ◌≤◌, List};
ghost use Rattle.drawings.specs.declared.place.Place.{Place};
ghost use Rattle.network.specs.Apart.{Has, AreOnPage};
ghost use Rattle.network.specs.GraphValue.{diagram};
ghost use Rattle.network.specs.GraphValue.{IsSoundNetwork};
ghost use Rattle.power_flow.specs.Steps.RowEnds.{AreRows};

use drawings::DrawnBox;
use network::Element;

/// The rows of a network: its topmost row, and how many there are from there to its lowest.
#[derive(Clone, Copy)]
pub struct Rows {
    pub top: usize,
    pub count: usize,
}

/// The lowest row of the pins of a box; its top where it has none.
fn lowest_pin(drawn: &DrawnBox) -> usize
    ensures below { (p : Place) → Has (Element.Box drawn.now) p → p.row ≤ result }
    ensures reached { (p : Place) × Has (Element.Box drawn.now) p × (p.row ≡ result) }
{
    let mut lowest = drawn.top;
    for pin in drawn.pins.as_slice() {
        lowest = lowest.max(pin.row);
    }
    lowest
}

/// The lowest row in which an element has a place.
fn lowest_row(element: &Element) -> usize
    ensures below { (p : Place) → Has element.now p → p.row ≤ result }
    ensures reached { (p : Place) × Has element.now p × (p.row ≡ result) }
{
    match element {
        Element::Box(boxed) => lowest_pin(boxed.drawn()),
        _ => element.first_place().row,
    }
}

impl Rows {
    /// The rows in which these elements have places.
    pub fn of(elements: &[Element]) -> Rows
        requires { AreOnPage elements.now }
        ensures rows { (rails : List Place) → IsSoundNetwork (diagram rails elements.now)
            → AreRows elements.now result.top result.count }
        ensures low { (rails : List Place) → IsSoundNetwork (diagram rails elements.now) → result.count ≤ 200 }
    {
        let Some(first) = elements.first() else {
            return Rows { top: 0, count: 0 };
        };
        let mut top = first.first_place().row;
        let mut lowest = top;
        for element in elements {
            top = top.min(element.first_place().row);
            lowest = lowest.max(lowest_row(element));
        }
        Rows {
            top,
            count: lowest - top + 1,
        }
    }
}
