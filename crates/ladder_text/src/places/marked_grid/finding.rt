//! The marks, found by the characters, the boxes and the rails.

ghost use Rattle.std.specs.Prelude.{◌≡◌, ◌<◌, ◌^◌, IfOk, IsTrue};
ghost use Rattle.ladder_rows.specs.Rows.{char_at};
ghost use Rattle.ladder_rows.specs.Boxes.{outlines};
ghost use Rattle.ladder_text.specs.Places.{layout_of, in_contact, in_coil, mark};
ghost use Rattle.ladder_rows.specs.Steps.RowBoxes.{IsBare};
ghost use Rattle.ladder_text.specs.Picture.{row_marks, marks_of};

use crate::places::marked_grid::MarkedGrid;
use drawings::{Mark, MarkRow};
use std::alloc::{AllocError, Global};

impl MarkedGrid {
    /// What stands at a place with a character, of which it is known whether it is in a contact or a coil.
    #[inline(always)]
    #[tactic(auto, unfolding(crate::specs::Places::layout_of, crate::specs::Places::mark))]
    fn mark_with(
        &self,
        bare: bool,
        c: u8,
        row: usize,
        column: usize,
        contact: bool,
        coil: bool,
    ) -> Mark
        requires column { column < 2 ^ 62 }
        requires bare { IsTrue bare → IsBare (outlines self.now) row }
        requires char { c ≡ char_at self.now row column }
        requires contact { contact ≡ in_contact (layout_of self.now) row column }
        requires coil { coil ≡ in_coil (layout_of self.now) row column }
        ensures { result ≡ mark (layout_of self.now) row column }
    {
        if bare && c == b'-' && !contact && !coil {
            return Mark::Wire;
        }
        if bare && c != b'-' && c != b'|' && c != b'+' && !contact && !coil {
            return Mark::Blank;
        }
        if self.in_box_of(bare, row, column) {
            Mark::BoxPart
        } else if contact {
            Mark::ContactPart
        } else if coil {
            Mark::CoilPart
        } else if self.is_rail_column(column) && (c == b'|' || c == b'+') {
            Mark::Rail
        } else if c == b'+' {
            Mark::Join
        } else if c == b'|' {
            Mark::Upright
        } else if c == b'-' && !self.in_operand_of(bare, row, column) {
            Mark::Wire
        } else {
            Mark::Blank
        }
    }

    /// What stands at a place, found by the characters and the boxes.
    pub fn find_mark(&self, row: usize, column: usize) -> Mark
        requires { column < 2 ^ 62 }
        ensures { result ≡ mark (layout_of self.now) row column }
    {
        let c = self.grid.at(row, column);
        let in_contact = self.in_contact(row, column);
        self.mark_with(false, c, row, column, in_contact, self.in_coil(row, column))
    }

    /// The marks of a row, each place looked up by itself.
    #[tactic(auto, unfolding(crate::specs::Places::layout_of))]
    fn row_marks_by_place(&self, alloc: Global, row: usize) -> Result<MarkRow, AllocError>
        ensures { IfOk result (λ m. m ≡ row_marks (layout_of self.now) row) }
    {
        let mut marks = MarkRow::with_room(alloc, self.grid.last())?;
        for column in 0..self.grid.last() {
            marks.push(self.find_mark(row, column + 1))?;
        }
        Ok(marks)
    }

    /// The marks of a row: those of a symbol at once, and each other one by its character.
    #[inline(never)]
    #[tactic(auto, unfolding(crate::specs::Places::layout_of))]
    fn row_marks(&self, alloc: Global, row: usize) -> Result<MarkRow, AllocError>
        ensures { IfOk result (λ m. m ≡ row_marks (layout_of self.now) row) }
    {
        if self.contact_at(row, 0).is_some() || self.coil_at(row, 0).is_some() {
            return self.row_marks_by_place(alloc, row);
        }
        let bare = self.is_bare(row);
        let cells = self.grid.cells(row);
        let last = self.grid.last();
        let mut marks = MarkRow::with_room(alloc, last)?;
        let mut column = 0;
        while column < last {
            let c = self.grid.cell(cells, row, column + 1);
            if self.begins_contact(c, row, column + 1) {
                marks.push_symbol(Mark::ContactPart)?;
                column += 3;
            } else if self.begins_coil(c, row, column + 1) {
                marks.push_symbol(Mark::CoilPart)?;
                column += 3;
            } else {
                marks.push(self.mark_with(bare, c, row, column + 1, false, false))?;
                column += 1;
            }
        }
        Ok(marks)
    }

    /// The marks, found row by row.
    #[tactic(auto, unfolding(crate::specs::Places::layout_of, crate::specs::Picture::marks_of))]
    pub fn find_marks(&self, alloc: Global) -> Result<Vec<MarkRow>, AllocError>
        ensures { IfOk result (λ v. v.items ≡ marks_of (layout_of self.now)) }
    {
        let mut all = Vec::new(alloc);
        for row in 0..self.grid.row_end().saturating_sub(1) {
            all.push(self.row_marks(alloc, row + 1)?)?;
        }
        Ok(all)
    }
}
