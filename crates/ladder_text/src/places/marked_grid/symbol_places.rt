//! Where contacts and coils are.

ghost use Rattle.std.specs.Prelude.{◌≡◌, ◌+◌, ◌-◌, ◌<◌, ◌^◌, is_some};
ghost use Rattle.ladder_rows.specs.Rows.{char_at};
ghost use Rattle.ladder_text.specs.SymbolKinds.{contact_kind, coil_kind};
ghost use Rattle.ladder_text.specs.Places.{layout_of, are_three_free, contact_at, coil_at, in_box, in_contact, in_coil, is_taken, mark as place_mark};
ghost use Rattle.ladder_text.specs.Faults.{is_first_of_symbol};

use crate::places::marked_grid::MarkedGrid;
use drawings::{CoilKind, ContactKind, Mark};

#[tactic(auto, unfolding(crate::specs::SymbolKinds::contact_kind))]
fn contact_kind(c: u8) -> Option<ContactKind>
    ensures { result ≡ contact_kind c }
{
    match c {
        b' ' => Some(ContactKind::Plain),
        b'/' => Some(ContactKind::Negated),
        b'P' | b'p' => Some(ContactKind::Rise),
        b'N' | b'n' => Some(ContactKind::Fall),
        _ => None,
    }
}

#[tactic(auto, unfolding(crate::specs::SymbolKinds::coil_kind))]
fn coil_kind(c: u8) -> Option<CoilKind>
    ensures { result ≡ coil_kind c }
{
    match c {
        b' ' => Some(CoilKind::Plain),
        b'/' => Some(CoilKind::Negated),
        b'S' | b's' => Some(CoilKind::Set),
        b'R' | b'r' => Some(CoilKind::Reset),
        b'P' | b'p' => Some(CoilKind::Rise),
        b'N' | b'n' => Some(CoilKind::Fall),
        _ => None,
    }
}

impl MarkedGrid {
    /// Whether none of the three places from a column on is in a box.
    #[inline(always)]
    #[tactic(auto, unfolding(crate::specs::Places::layout_of))]
    fn are_three_free(&self, row: usize, column: usize) -> bool
        requires { column < 2 ^ 62 }
        ensures { result ≡ are_three_free (layout_of self.now) row column }
    {
        if self.is_bare(row) {
            return true;
        }
        !(self.in_box(row, column) || self.in_box(row, column + 1) || self.in_box(row, column + 2))
    }

    #[tactic(auto, unfolding(crate::specs::Places::layout_of, crate::specs::Places::contact_at))]
    pub fn contact_at(&self, row: usize, column: usize) -> Option<ContactKind>
        requires { column < 2 ^ 62 }
        ensures { result ≡ contact_at (layout_of self.now) row column }
    {
        let cells = self.grid.cells(row);
        if self.grid.cell(cells, row, column) != b'|' {
            return None;
        }
        let before = self.grid.cell(cells, row, column.saturating_sub(1));
        let open = (before == b'-' || before == b'+')
            && self.grid.cell(cells, row, column + 2) == b'|'
            && self.are_three_free(row, column);
        if open {
            contact_kind(self.grid.cell(cells, row, column + 1))
        } else {
            None
        }
    }

    #[tactic(auto, unfolding(crate::specs::Places::layout_of, crate::specs::Places::coil_at))]
    pub fn coil_at(&self, row: usize, column: usize) -> Option<CoilKind>
        requires { column < 2 ^ 62 }
        ensures { result ≡ coil_at (layout_of self.now) row column }
    {
        let round = self.grid.at(row, column) == b'('
            && self.grid.at(row, column + 2) == b')'
            && self.are_three_free(row, column);
        if round {
            coil_kind(self.grid.at(row, column + 1))
        } else {
            None
        }
    }

    /// Whether a contact begins at a place with a character.
    #[tactic(auto, unfolding(crate::specs::Places::layout_of), using(crate::proofs::Marks::SymbolPlaces::begins_no_contact))]
    pub fn begins_contact(&self, c: u8, row: usize, column: usize) -> bool
        requires column { column < 2 ^ 62 }
        requires char { c ≡ char_at self.now row column }
        ensures { result ≡ is_some (contact_at (layout_of self.now) row column) }
    {
        c == b'|' && self.contact_at(row, column).is_some()
    }

    /// Whether a coil begins at a place with a character.
    #[tactic(auto, unfolding(crate::specs::Places::layout_of), using(crate::proofs::Marks::SymbolPlaces::begins_no_coil))]
    pub fn begins_coil(&self, c: u8, row: usize, column: usize) -> bool
        requires column { column < 2 ^ 62 }
        requires char { c ≡ char_at self.now row column }
        ensures { result ≡ is_some (coil_at (layout_of self.now) row column) }
    {
        c == b'(' && self.coil_at(row, column).is_some()
    }

    #[tactic(auto, unfolding(crate::specs::Places::layout_of), using(crate::proofs::Marks::SymbolPlaces::no_contact))]
    pub fn in_contact(&self, row: usize, column: usize) -> bool
        requires { column < 2 ^ 62 }
        ensures { result ≡ in_contact (layout_of self.now) row column }
    {
        let before = self.grid.at(row, column.saturating_sub(1));
        if self.grid.at(row, column) != b'|' && before != b'|' {
            return false;
        }
        self.contact_at(row, column).is_some()
            || self.contact_at(row, column.saturating_sub(1)).is_some()
            || self.contact_at(row, column.saturating_sub(2)).is_some()
    }

    #[tactic(auto, unfolding(crate::specs::Places::layout_of), using(crate::proofs::Marks::SymbolPlaces::no_coil))]
    pub fn in_coil(&self, row: usize, column: usize) -> bool
        requires { column < 2 ^ 62 }
        ensures { result ≡ in_coil (layout_of self.now) row column }
    {
        let c = self.grid.at(row, column);
        let before = self.grid.at(row, column.saturating_sub(1));
        if c != b'(' && c != b')' && before != b'(' {
            return false;
        }
        self.coil_at(row, column).is_some()
            || self.coil_at(row, column.saturating_sub(1)).is_some()
            || self.coil_at(row, column.saturating_sub(2)).is_some()
    }

    /// Whether a place is in a box or a symbol, without a look at its mark.
    pub fn in_box_or_symbol(&self, row: usize, column: usize) -> bool
        requires { column < 2 ^ 62 }
        ensures { result ≡ is_taken (layout_of self.now) row column }
    {
        self.in_box(row, column) || self.in_contact(row, column) || self.in_coil(row, column)
    }

    /// Whether a contact or a coil begins at a place with a mark.
    #[tactic(auto, using(crate::proofs::Marks::SymbolPlaces::first_by_mark, crate::proofs::Marks::RowMarks::contact_by_mark, crate::proofs::Marks::RowMarks::coil_by_mark))]
    pub fn begins_symbol(&self, mark: Mark, row: usize, column: usize) -> bool
        requires column { column < 2 ^ 62 }
        requires mark { mark ≡ place_mark (layout_of self.now) row column }
        ensures { result ≡ is_first_of_symbol (layout_of self.now) row column }
    {
        if matches!(mark, Mark::ContactPart) {
            return self.contact_at(row, column).is_some();
        }
        matches!(mark, Mark::CoilPart) && self.coil_at(row, column).is_some()
    }
}
