//! The boxes, the rails and the marks of a text.

mod box_faults;
mod box_places;
mod finding;
mod place_faults;
mod rails;
mod symbol_places;

ghost use Rattle.std.specs.Prelude.{◌≡◌, ◌<◌, ◌≤◌, ◌^◌, IfSome, IfOk};
ghost use Rattle.ladder_rows.specs.Rows.{width};
ghost use Rattle.ladder_rows.specs.Boxes.{outlines};
ghost use Rattle.ladder_text.specs.Places.{layout_of, is_taken, mark as place_mark};
ghost use Rattle.ladder_text.specs.Steps.RowMarks.{AreMarksOf};
ghost use Rattle.ladder_text.specs.Picture.{marks_of};

use crate::places::mark_tests::is_taken;
use drawings::{Mark, MarkRow};
use ladder_rows::{Boxes, Grid, Outline};
use std::alloc::{AllocError, Global};
use std::marker::Model;

/// A grid with its boxes, and what was found so far: whether there is a right rail, and the marks row by row.
/// What wasn't found yet is looked up at each place.
#[derive(Drop)]
pub struct MarkedGrid {
    grid: Grid,
    boxes: Boxes,
    right_rail: Option<bool>,
    marks: Vec<MarkRow>,
}

impl Model for MarkedGrid {
    ghost use Rattle.ladder_rows.specs.Rows.{Rows};
    ghost use Rattle.ladder_text.specs.Steps.RowMarks.{AreFoundIn};

    ghost Value = { Rows };

    ghost view = { λ s. s.grid };

    ghost invariant = { λ s. AreFoundIn s.grid s.boxes s.right_rail s.marks.items };
}

impl MarkedGrid {
    /// A grid with its boxes.
    pub fn with_boxes(alloc: Global, grid: Grid) -> Result<MarkedGrid, AllocError>
        ensures { IfOk result (λ s. s ≡ grid) }
    {
        let boxes = Boxes::new(alloc, &grid)?;
        Ok(MarkedGrid {
            grid,
            boxes,
            right_rail: None,
            marks: Vec::new(alloc),
        })
    }

    /// The same with its right rail found.
    fn with_rail(self) -> MarkedGrid
        ensures { result ≡ self }
    {
        let found = self.has_right_rail();
        let MarkedGrid {
            grid,
            boxes,
            right_rail: _,
            marks,
        } = self;
        MarkedGrid {
            grid,
            boxes,
            right_rail: Some(found),
            marks,
        }
    }

    /// The same with the marks of its rows found.
    fn with_row_marks(self, alloc: Global) -> Result<MarkedGrid, AllocError>
        ensures { IfOk result (λ s. s ≡ self) }
    {
        let found = self.find_marks(alloc)?;
        let MarkedGrid {
            grid,
            boxes,
            right_rail,
            marks: _,
        } = self;
        Ok(MarkedGrid {
            grid,
            boxes,
            right_rail,
            marks: found,
        })
    }

    /// The same with its right rail and all marks found.
    pub fn with_marks(self, alloc: Global) -> Result<MarkedGrid, AllocError>
        ensures { IfOk result (λ s. s ≡ self) }
    {
        self.with_rail().with_row_marks(alloc)
    }

    /// The marks row by row, found now if they weren't before.
    pub fn into_marks(self, alloc: Global) -> Result<Vec<MarkRow>, AllocError>
        ensures { IfOk result (λ v. v.items ≡ marks_of (layout_of self)) }
    {
        if self.marks.is_empty() {
            return self.find_marks(alloc);
        }
        let MarkedGrid {
            grid: _,
            boxes: _,
            right_rail: _,
            marks,
        } = self;
        Ok(marks)
    }

    pub fn grid(&self) -> &Grid
        ensures { result.now ≡ self.now }
    {
        &self.grid
    }

    #[tactic(auto, unfolding(crate::specs::Places::layout_of))]
    pub fn boxes(&self) -> &[Outline]
        ensures { result.now ≡ outlines self.now }
    {
        self.boxes.as_slice()
    }

    /// What stands at a place.
    #[tactic(auto, unfolding(crate::specs::Places::layout_of))]
    pub fn mark(&self, row: usize, column: usize) -> Mark
        requires { column < 2 ^ 62 }
        ensures { result ≡ place_mark (layout_of self.now) row column }
    {
        if column == 0 || self.grid.last() < column {
            return self.find_mark(row, column);
        }
        match self.marks_on(row) {
            Some(marks) => marks.at(column),
            None => self.find_mark(row, column),
        }
    }

    /// The marks of a row, if it is one of the drawing's and they were found.
    pub fn marks_on(&self, row: usize) -> Option<&MarkRow>
        ensures { IfSome result (λ marks. AreMarksOf (layout_of self.now) row marks.now) }
    {
        if row == 0 {
            return None;
        }
        let marks = self.marks.get(row - 1)?;
        Some(marks)
    }

    /// What stands at a place of a row whose marks are at hand.
    #[tactic(auto, unfolding(crate::specs::Places::layout_of))]
    pub fn mark_in(&self, marks: &MarkRow, row: usize, column: usize) -> Mark
        requires marks { AreMarksOf (layout_of self.now) row marks.now }
        requires column { column ≤ width self.now }
        requires narrow { column < 2 ^ 61 }
        ensures { result ≡ place_mark (layout_of self.now) row column }
    {
        if column == 0 {
            return self.mark(row, column);
        }
        marks.at(column)
    }

    /// Whether a place is in a box or a symbol.
    #[tactic(auto, using(crate::proofs::Marks::LaidMarks::taken_by_mark))]
    pub fn is_taken(&self, row: usize, column: usize) -> bool
        requires { column < 2 ^ 62 }
        ensures { result ≡ is_taken (layout_of self.now) row column }
    {
        is_taken(self.mark(row, column))
    }
}
