ghost use Rattle.std.specs.Prelude.{◌≡◌, ◌<◌, IfOk, length};
ghost use Rattle.drawings.specs.declared.place.Place.{Place};
ghost use Rattle.network.specs.Links.{Takes};
ghost use Rattle.network.specs.Apart.{Has};
ghost use Rattle.network.specs.Steps.Listed.{element_seen};
ghost use Rattle.network.specs.Steps.Pairs.{AreLaidOut, AreTakers};
ghost use Rattle.network.specs.Steps.Rows.{Puts};

use crate::joining::links::takes;
use crate::joining::row_table::RowTable;
use crate::listing::listed::{Elements, Seen};
use drawings::{Place, Side};
use std::alloc::{AllocError, Global};

/// Puts an element into the rows in which it takes state in a column.
fn put_taker(takers: &mut RowTable, element: Seen, k: usize, column: usize)
    requires { (p : Place) → Has (element_seen element) p → p.row < length takers.old }
    ensures long { length takers.new ≡ length takers.old }
    ensures puts { Puts (λ p. Takes (element_seen element.entry) p × (p.column ≡ column)) k takers.old takers.new }
{
    if let Seen::Box(drawn) = element {
        if drawn.left == column {
            takers.put_pins(drawn, Side::Left, k);
        }
    } else {
        let row = element.first_place().row;
        let at = Place { row, column };
        if takes(element, at) {
            takers.put(at, k);
        }
    }
}

/// The element of each row that takes state in a column. None does that begins behind the column.
pub fn takers_of(
    alloc: Global,
    rows: usize,
    elements: &Elements,
    column: usize,
) -> Result<RowTable, AllocError>
    requires { AreLaidOut rows elements.now }
    ensures long { IfOk result (λ takers. length takers ≡ rows) }
    ensures takers { IfOk result (λ takers. AreTakers elements.now column takers (length elements.now)) }
{
    let mut takers = RowTable::new(alloc, rows)?;
    for k in 0..elements.len() {
        let element = elements.at(k);
        if column < element.first_place().column {
            return Ok(takers);
        }
        put_taker(&mut takers, element, k, column);
    }
    Ok(takers)
}
