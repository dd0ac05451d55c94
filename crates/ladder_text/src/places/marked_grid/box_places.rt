//! Where boxes are, and what reaches out of them.

ghost use Rattle.std.specs.Prelude.{◌≡◌, ◌<◌, ◌^◌, IfOk, IsTrue};
ghost use Rattle.std.specs.List.{list_any};
ghost use Rattle.ladder_rows.specs.Boxes.{outlines};
ghost use Rattle.ladder_text.specs.Places.{layout_of, in_box, in_operand, is_right_pin};
ghost use Rattle.ladder_text.specs.Names.{tops};
ghost use Rattle.ladder_text.specs.Faults.{blind_left, blind_right};
ghost use Rattle.ladder_rows.specs.Steps.RowBoxes.{box_test, IsBare};

use crate::places::marked_grid::MarkedGrid;
use ladder_rows::{BoxTest, Span};
use std::alloc::{AllocError, Global};

impl MarkedGrid {
    /// Whether a box passes a test at a place.
    fn any_box(&self, test: BoxTest, row: usize, column: usize) -> bool
        requires { column < 2 ^ 63 }
        ensures { result ≡ list_any (box_test test row column) (outlines self.now) }
    {
        self.boxes.any(test, row, column)
    }

    /// Whether no box has a row.
    pub fn is_bare(&self, row: usize) -> bool
        ensures { IsTrue result → IsBare (outlines self.now) row }
    {
        self.boxes.is_bare(row)
    }

    #[tactic(auto, unfolding(crate::specs::Places::layout_of))]
    pub fn in_box(&self, row: usize, column: usize) -> bool
        requires { column < 2 ^ 63 }
        ensures { result ≡ in_box (layout_of self.now) row column }
    {
        self.any_box(BoxTest::Covers, row, column)
    }

    /// Whether a place is in a box; of a row that is bare it is known.
    #[tactic(auto, unfolding(crate::specs::Places::layout_of))]
    pub fn in_box_of(&self, bare: bool, row: usize, column: usize) -> bool
        requires column { column < 2 ^ 62 }
        requires bare { IsTrue bare → IsBare (outlines self.now) row }
        ensures { result ≡ in_box (layout_of self.now) row column }
    {
        !bare && self.in_box(row, column)
    }

    #[tactic(auto, unfolding(crate::specs::Places::layout_of))]
    pub fn in_operand(&self, row: usize, column: usize) -> bool
        requires { column < 2 ^ 63 }
        ensures { result ≡ in_operand (layout_of self.now) row column }
    {
        self.any_box(BoxTest::Reaches, row, column)
    }

    /// The same; of a row that is bare it is known.
    #[inline(always)]
    #[tactic(auto, unfolding(crate::specs::Places::layout_of))]
    pub fn in_operand_of(&self, bare: bool, row: usize, column: usize) -> bool
        requires column { column < 2 ^ 63 }
        requires bare { IsTrue bare → IsBare (outlines self.now) row }
        ensures { result ≡ in_operand (layout_of self.now) row column }
    {
        !bare && self.in_operand(row, column)
    }

    #[tactic(auto, unfolding(crate::specs::Places::layout_of))]
    pub fn is_right_pin(&self, row: usize, column: usize) -> bool
        requires { column < 2 ^ 63 }
        ensures { result ≡ is_right_pin (outlines self.now) row column }
    {
        self.any_box(BoxTest::RightPin, row, column)
    }

    #[tactic(auto, unfolding(crate::specs::Places::layout_of))]
    pub fn blind_right(&self, row: usize, column: usize) -> bool
        requires { column < 2 ^ 63 }
        ensures { result ≡ blind_right (layout_of self.now) row column }
    {
        self.any_box(BoxTest::BlindRight, row, column)
    }

    #[tactic(auto, unfolding(crate::specs::Places::layout_of))]
    pub fn blind_left(&self, row: usize, column: usize) -> bool
        requires { column < 2 ^ 63 }
        ensures { result ≡ blind_left (layout_of self.now) row column }
    {
        self.any_box(BoxTest::BlindLeft, row, column)
    }

    /// The top sides of the boxes that begin in a row.
    #[tactic(auto, unfolding(crate::specs::Places::layout_of, crate::specs::Names::tops))]
    pub fn tops(&self, alloc: Global, row: usize) -> Result<Vec<Span>, AllocError>
        ensures { IfOk result (λ v. v.items ≡ tops (layout_of self.now) row) }
    {
        self.boxes.tops(alloc, row)
    }
}
