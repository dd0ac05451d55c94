ghost use Rattle.std.specs.Prelude.{◌≡◌};
ghost use Rattle.network.specs.Steps.Tables.{AreNone};

use drawings::{DrawnBox, Place, Side};
use std::alloc::{AllocError, Global};
use std::marker::Model;

/// An element's place in a row: the element's number, and the column.
#[derive(Clone, Copy)]
pub struct InRow {
    pub element: usize,
    pub column: usize,
}

/// For each row of a drawing, a place of an element there, if one was put.
#[derive(Drop)]
pub struct RowTable {
    rows: Vec<Option<InRow>>,
}

impl Model for RowTable {
    ghost use Rattle.std.specs.Prelude.{List, Option};
    ghost use Rattle.network.specs.declared.joining.row_table.InRow.{InRow};

    ghost Value = { List (Option InRow) };

    ghost view = { λ t. t.rows.items };
}

impl RowTable {
    ghost use Rattle.std.specs.Prelude.{◌≡◌, ◌<◌, ℕ, Option, Some, None, IfOk, length, slice_get, slice_set};
    ghost use Rattle.drawings.specs.declared.place.Place.{Place};
    ghost use Rattle.network.specs.declared.joining.row_table.InRow.{InRow};
    ghost use Rattle.network.specs.Links.{IsPinPlace};
    ghost use Rattle.network.specs.Steps.Rows.{in_row, Puts};

    /// So many rows without places.
    pub fn new(alloc: Global, count: usize) -> Result<Self, AllocError>
        ensures long { IfOk result (λ table. length table ≡ count) }
        ensures none { IfOk result (λ table. AreNone table) }
    {
        let mut rows = Vec::with_capacity(alloc, count)?;
        for _row in 0..count {
            rows.push(None)?;
        }
        Ok(RowTable { rows })
    }

    /// The place in a row.
    pub fn at(&self, row: usize) -> Option<InRow>
        requires { row < length self.now }
        ensures { slice_get self.now row ≡ Some result }
    {
        self.rows[row]
    }

    /// Puts a place of an element into its row.
    pub fn put(&mut self, at: Place, element: usize)
        requires { at.row < length self.old }
        ensures { self.new ≡ slice_set self.old at.row (Some (in_row element at.column)) }
    {
        let column = at.column;
        self.rows[at.row] = Some(InRow { element, column });
    }

    /// Puts the places of a box's pins on one side into their rows.
    pub fn put_pins(&mut self, drawn: &DrawnBox, side: Side, element: usize)
        requires { (p : Place) → IsPinPlace side drawn.now p → p.row < length self.old }
        ensures long { length self.new ≡ length self.old }
        ensures puts { Puts (IsPinPlace side drawn.now) element self.old self.new }
    {
        let column = match side {
            Side::Left => drawn.left,
            Side::Right => drawn.right,
        };
        for pin in drawn.pins.as_slice() {
            if pin.side == side {
                let row = pin.row;
                self.put(Place { row, column }, element);
            }
        }
    }
}
