//! The faults of single places.

ghost use Rattle.std.specs.Prelude.{◌≡◌, ◌+◌, ◌-◌, ◌<◌, ◌≤◌, ◌^◌, ℕ, [], IsTrue, IsFalse, IfNone, IfSome, slice_index_or};
ghost use Rattle.ladder_rows.specs.Rows.{width};
ghost use Rattle.ladder_rows.specs.Boxes.{outlines};
ghost use Rattle.ladder_text.specs.Places.{layout_of, gives, mark as place_mark};
ghost use Rattle.ladder_rows.specs.Steps.RowBoxes.{IsBare};
ghost use Rattle.ladder_text.specs.Steps.RowMarks.{AreMarksOf};
ghost use Rattle.ladder_text.specs.Faults.{has_fed_join, is_blind, touches, is_fed, upright_len, bad_mark, crossing, no_source, has_fault};
ghost use Rattle.ladder_rows.specs.Faults.{NowhereInRows};
ghost use Rattle.ladder_rows.specs.Steps.Search.{NowhereInRow, PassesAt, IsFirstToPass};
ghost use Rattle.ladder_text.specs.Steps.Search.{IsFineAt, IsFineRow};

use crate::places::mark_tests::{has_meaning, is_line, is_taken, is_vertical};
use crate::places::marked_grid::MarkedGrid;
use crate::places::place_fault::PlaceFault;
use drawings::{Mark, MarkRow, Place};
use ladder_rows::{first_is_by_rows, runs_end};

impl MarkedGrid {
    #[tactic(auto, unfolding(crate::specs::Places::layout_of, crate::specs::Places::gives))]
    pub fn gives(&self, row: usize, column: usize) -> bool
        requires { column < 2 ^ 62 }
        ensures { result ≡ gives (layout_of self.now) row column }
    {
        let mark = self.mark(row, column);
        (mark == Mark::Rail && column == self.grid.left())
            || is_line(mark)
            || self.is_right_pin(row, column)
    }

    /// Whether a place with a mark is seen to give state to its right, boxes aside.
    #[tactic(auto, unfolding(crate::specs::Places::layout_of, crate::specs::Places::gives))]
    fn mark_gives(&self, mark: Mark, row: usize, column: usize) -> bool
        requires { mark ≡ place_mark (layout_of self.now) row column }
        ensures { IsTrue result → IsTrue (gives (layout_of self.now) row column) }
    {
        is_line(mark) || (mark == Mark::Rail && column == self.grid.left())
    }

    fn touches(&self, row: usize, column: usize) -> bool
        requires { column < 2 ^ 62 }
        ensures { result ≡ touches (layout_of self.now) row column }
    {
        let mark = self.mark(row, column);
        is_line(mark) || mark == Mark::BoxPart
    }

    fn crossing(&self, mark: Mark, row: usize, column: usize) -> bool
        requires row { row < 2 ^ 62 }
        requires column { column < 2 ^ 61 }
        requires mark { mark ≡ place_mark (layout_of self.now) row column }
        ensures { result ≡ crossing (layout_of self.now) row column }
    {
        mark == Mark::Upright
            && (self.touches(row, column.saturating_sub(1))
                || self.touches(row, column + 1)
                || !is_vertical(self.mark(row.saturating_sub(1), column))
                || !is_vertical(self.mark(row + 1, column)))
    }

    /// Whether a line begins at a place with a mark, and meets a box where there is no pin.
    fn is_blind(&self, mark: Mark, row: usize, column: usize) -> bool
        requires column { column < 2 ^ 61 }
        requires mark { mark ≡ place_mark (layout_of self.now) row column }
        ensures { result ≡ is_blind (layout_of self.now) row column }
    {
        let begins_symbol = self.begins_symbol(mark, row, column);
        if !(mark == Mark::Wire || mark == Mark::Join || begins_symbol) {
            return false;
        }
        let end = if begins_symbol { column + 2 } else { column };
        self.blind_left(row, column) || self.blind_right(row, end)
    }

    #[tactic(auto, unfolding(crate::specs::Places::layout_of), using(crate::proofs::Marks::LaidMarks::taken_by_mark))]
    fn bad_mark(&self, mark: Mark, row: usize, column: usize) -> bool
        requires column { column < 2 ^ 61 }
        requires mark { mark ≡ place_mark (layout_of self.now) row column }
        ensures { result ≡ bad_mark (layout_of self.now) row column }
    {
        (!is_taken(mark) && !has_meaning(self.grid.at(row, column)))
            || self.is_blind(mark, row, column)
    }

    /// How far the upright at a place goes down.
    fn upright_len(&self, row: usize, column: usize) -> usize
        requires row { row < 2 ^ 62 }
        requires column { column < 2 ^ 62 }
        ensures len { result ≡ upright_len (layout_of self.now) row column }
        ensures few { result ≤ 2001 }
    {
        runs_end();
        let limit = self.grid.row_end().saturating_sub(1);
        let mut n = 0;
        while n < limit && is_vertical(self.mark(row + n, column)) {
            n += 1;
        }
        n
    }

    fn is_fed(&self, column: usize, row: usize) -> bool
        requires { column < 2 ^ 62 }
        ensures { result ≡ is_fed (layout_of self.now) column row }
    {
        self.mark(row, column) == Mark::Join && self.gives(row, column.saturating_sub(1))
    }

    fn has_fed_join(&self, row: usize, column: usize) -> bool
        requires row { row < 2 ^ 62 }
        requires column { column < 2 ^ 62 }
        ensures { result ≡ has_fed_join (layout_of self.now) row column }
    {
        let end = row + self.upright_len(row, column);
        (row..end).any(|k| self.is_fed(column, k))
    }

    fn no_source(&self, mark: Mark, row: usize, column: usize) -> bool
        requires row { row < 2 ^ 62 }
        requires column { column < 2 ^ 62 }
        requires mark { mark ≡ place_mark (layout_of self.now) row column }
        ensures { result ≡ no_source (layout_of self.now) row column }
    {
        ((mark == Mark::Wire || self.begins_symbol(mark, row, column))
            && !self.gives(row, column.saturating_sub(1)))
            || (is_vertical(mark)
                && !is_vertical(self.mark(row.saturating_sub(1), column))
                && !self.has_fed_join(row, column))
    }

    /// Whether a place with a mark has no fault.
    fn is_faultless_at(&self, mark: Mark, row: usize, column: usize) -> bool
        requires row { row < 2 ^ 62 }
        requires column { column < 2 ^ 61 }
        requires mark { mark ≡ place_mark (layout_of self.now) row column }
        ensures { IsTrue result → IsFineAt (layout_of self.now) row column }
    {
        !self.bad_mark(mark, row, column)
            && !self.crossing(mark, row, column)
            && !self.no_source(mark, row, column)
    }

    fn has_fault(&self, fault: PlaceFault, row: usize, column: usize) -> bool
        requires row { row < 2 ^ 62 }
        requires column { column < 2 ^ 61 }
        ensures { result ≡ has_fault fault (layout_of self.now) row column }
    {
        let mark = self.mark(row, column);
        match fault {
            PlaceFault::BadMark => self.bad_mark(mark, row, column),
            PlaceFault::Crossing => self.crossing(mark, row, column),
            PlaceFault::NoSource => self.no_source(mark, row, column),
        }
    }

    /// Whether a Join in a row without boxes surely has no fault, by the mark before it.
    fn is_join_fine(&self, before: Mark, row: usize, column: usize) -> bool
        requires row { row < 2 ^ 62 }
        requires column { column < 2 ^ 61 }
        requires bare { IsBare (outlines self.now) row }
        requires before { before ≡ place_mark (layout_of self.now) row (column - 1) }
        requires mark { place_mark (layout_of self.now) row column ≡ Mark.Join }
        ensures { IsTrue result → IsFineAt (layout_of self.now) row column }
    {
        if 1 < self.grid.row_end() && self.mark_gives(before, row, column.saturating_sub(1)) {
            return true;
        }
        self.is_faultless_at(Mark::Join, row, column)
    }

    /// Whether a place in a row without boxes surely has no fault, by the row's characters, the mark before it and its own.
    #[tactic(auto, unfolding(crate::specs::Places::layout_of))]
    fn is_fine(&self, cells: &[u8], before: Mark, mark: Mark, row: usize, column: usize) -> bool
        requires cells { cells.now ≡ slice_index_or self.now row [] }
        requires row { row < 2 ^ 62 }
        requires column { column < 2 ^ 61 }
        requires bare { IsBare (outlines self.now) row }
        requires before { before ≡ place_mark (layout_of self.now) row (column - 1) }
        requires mark { mark ≡ place_mark (layout_of self.now) row column }
        ensures { IsTrue result → IsFineAt (layout_of self.now) row column }
    {
        match mark {
            Mark::Wire | Mark::ContactPart | Mark::CoilPart => {
                self.mark_gives(before, row, column.saturating_sub(1))
            }
            Mark::Blank | Mark::Rail => has_meaning(self.grid.cell(cells, row, column)),
            Mark::Join => self.is_join_fine(before, row, column),
            Mark::Upright => !self.crossing(mark, row, column),
            Mark::BoxPart => self.is_faultless_at(mark, row, column),
        }
    }

    /// Whether a row without boxes surely has no fault.
    #[inline(never)]
    fn is_bare_row_fine(&self, marks: &MarkRow, row: usize) -> bool
        requires marks { AreMarksOf (layout_of self.now) row marks.now }
        requires row { row < 2 ^ 62 }
        requires bare { IsBare (outlines self.now) row }
        ensures { IsTrue result → IsFineRow self.now row }
    {
        let cells = self.grid.cells(row);
        let mut before = self.mark(row, 0);
        for column in 0..self.grid.last() + 1 {
            let mark = self.mark_in(marks, row, column);
            if !self.is_fine(cells, before, mark, row, column) {
                return false;
            }
            before = mark;
        }
        true
    }

    /// Whether a row has no fault of a kind.
    fn is_row_free(&self, fault: PlaceFault, row: usize) -> bool
        requires { row < 2 ^ 62 }
        ensures { IsTrue result → NowhereInRow self.now (has_fault fault (layout_of self.now) row) }
    {
        self.fault_in_row(fault, row).is_none()
    }

    /// Whether a row surely has no fault.
    #[tactic(auto, using(crate::proofs::Marks::FinePlaces::every_fault))]
    fn is_row_fine(&self, row: usize) -> bool
        requires { row < 2 ^ 62 }
        ensures { IsTrue result → IsFineRow self.now row }
    {
        if self.is_bare(row) {
            if let Some(marks) = self.marks_on(row) {
                return self.is_bare_row_fine(marks, row);
            }
        }
        self.is_row_free(PlaceFault::BadMark, row)
            && self.is_row_free(PlaceFault::Crossing, row)
            && self.is_row_free(PlaceFault::NoSource, row)
    }

    /// Whether no place has a fault; `false` where that isn't quickly seen.
    pub fn is_fine_everywhere(&self) -> bool
        ensures { IsTrue result → (fault : PlaceFault) → NowhereInRows self.now (has_fault fault (layout_of self.now)) }
    {
        for row in 0..self.grid.row_end() {
            if !self.is_row_fine(row) {
                return false;
            }
        }
        true
    }

    fn fault_in_row(&self, fault: PlaceFault, row: usize) -> Option<usize>
        requires { row < 2 ^ 62 }
        ensures none { IfNone result (NowhereInRow self.now (has_fault fault (layout_of self.now) row)) }
        ensures inside { IfSome result (λ c. c ≤ width self.now) }
        ensures some { IfSome result (λ c. IsTrue (has_fault fault (layout_of self.now) row c)) }
        ensures before { IfSome result (λ c. (k : ℕ) → k < c → IsFalse (has_fault fault (layout_of self.now) row k)) }
    {
        for column in 0..self.grid.last() + 1 {
            if self.has_fault(fault, row, column) {
                return Some(column);
            }
        }
        None
    }

    /// The first place with a fault.
    pub fn first_fault(&self, fault: PlaceFault) -> Option<Place>
        ensures none { IfNone result (NowhereInRows self.now (has_fault fault (layout_of self.now))) }
        ensures some { IfSome result (λ p. PassesAt self.now (has_fault fault (layout_of self.now)) p) }
        ensures first { IfSome result (λ p. IsFirstToPass self.now (has_fault fault (layout_of self.now)) p) }
    {
        first_is_by_rows();
        for row in 0..self.grid.row_end() {
            if let Some(column) = self.fault_in_row(fault, row) {
                return Some(Place { row, column });
            }
        }
        None
    }
}
