//! Where rails are.

ghost use Rattle.std.specs.Prelude.{◌≡◌};
ghost use Rattle.ladder_text.specs.Places.{layout_of, may_be_rail, has_right_rail, is_rail_column};

use crate::places::marked_grid::MarkedGrid;

impl MarkedGrid {
    /// Whether the place of the last column is blank, or a rail's character outside boxes and symbols.
    #[tactic(auto, unfolding(crate::specs::Places::layout_of, crate::specs::Places::may_be_rail))]
    fn may_be_rail(&self, row: usize) -> bool
        ensures { result ≡ may_be_rail (layout_of self.now) row }
    {
        let last = self.grid.last();
        let mark = self.grid.at(row, last);
        mark == b' ' || ((mark == b'|' || mark == b'+') && !self.in_box_or_symbol(row, last))
    }

    /// Whether the last column is a right rail, found row by row.
    #[tactic(auto, unfolding(crate::specs::Places::layout_of, crate::specs::Places::has_right_rail))]
    fn find_right_rail(&self) -> bool
        ensures { result ≡ has_right_rail (layout_of self.now) }
    {
        self.grid.left() < self.grid.last()
            && (1..self.grid.row_end()).all(|row| self.may_be_rail(row))
    }

    /// Whether the last column is a right rail.
    pub fn has_right_rail(&self) -> bool
        ensures { result ≡ has_right_rail (layout_of self.now) }
    {
        match self.right_rail {
            Some(known) => known,
            None => self.find_right_rail(),
        }
    }

    #[tactic(auto, unfolding(crate::specs::Places::layout_of))]
    pub fn is_rail_column(&self, column: usize) -> bool
        ensures { result ≡ is_rail_column (layout_of self.now) column }
    {
        column == self.grid.left() || (column == self.grid.last() && self.has_right_rail())
    }
}
