ghost use Rattle.std.specs.Prelude.{◌≡◌};

use drawings::Place;
use std::alloc::{AllocError, Global};
use std::marker::Model;

/// How far the symbols of a row are read.
#[derive(Clone, Copy)]
pub struct SymbolRow {
    /// The number of the symbol that is looked at first.
    pub next: usize,
    /// Where the symbol that was found last begins, 0 where none was.
    pub column: usize,
}

/// How far the contacts or the coils of each row are read, while places are gone through column by column.
#[derive(Drop)]
pub struct SymbolRows {
    rows: Vec<SymbolRow>,
}

impl Model for SymbolRows {
    ghost use Rattle.std.specs.Prelude.{List};
    ghost use Rattle.network.specs.declared.listing.symbol_rows.SymbolRow.{SymbolRow};

    ghost Value = { List SymbolRow };

    ghost view = { λ s. s.rows.items };
}

impl SymbolRows {
    ghost use Rattle.std.specs.Prelude.{◌≡◌, ◌⊎◌, ◌↔◌, IfOk, IsTrue};
    ghost use Rattle.drawings.specs.declared.place.Place.{Place};
    ghost use Rattle.network.specs.Steps.Symbols.{IsInside, IsBehind};

    /// So many rows in which no symbol was found.
    pub fn new(alloc: Global, count: usize) -> Result<Self, AllocError>
        ensures { IfOk result (λ rows. (p : Place) → IsInside rows p → ⊥) }
    {
        let mut rows = Vec::new(alloc);
        rows.resize(count, SymbolRow { next: 0, column: 0 })?;
        Ok(SymbolRows { rows })
    }

    /// The number of the symbol that is looked at first in a row.
    pub fn next(&self, row: usize) -> usize {
        match self.rows.get(row) {
            Some(symbol) => symbol.next,
            None => 0,
        }
    }

    /// Notes the number of the symbol that is looked at first in a row.
    pub fn expect(&mut self, row: usize, next: usize)
        ensures { (p : Place) → IsInside self.new p → IsInside self.old p }
    {
        if row < self.rows.len() {
            self.rows[row].next = next;
        }
    }

    /// Whether a place is the second or third one of the symbol that was found last in its row.
    pub fn is_inside(&self, at: Place) -> bool
        ensures { IsTrue result ↔ IsInside self.now at }
    {
        match self.rows.get(at.row) {
            Some(symbol) => {
                0 < symbol.column && symbol.column < at.column && at.column - symbol.column <= 2
            }
            None => false,
        }
    }

    /// Notes that a symbol begins at a place.
    pub fn found(&mut self, at: Place, number: usize)
        ensures { (p : Place) → IsInside self.new p → IsInside self.old p ⊎ IsBehind at p }
    {
        if at.row < self.rows.len() {
            self.rows[at.row] = SymbolRow {
                next: number.saturating_add(1),
                column: at.column,
            };
        }
    }
}
