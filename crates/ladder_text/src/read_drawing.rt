//! A drawing read from its text.

ghost use Rattle.std.specs.Prelude.{◌≡◌, ◌≢◌, ◌↔◌, ◌<◌, ◌≤◌, ◌^◌, IfOk, IfErr};
ghost use Rattle.ladder_rows.specs.Rows.{rows_of};
ghost use Rattle.ladder_text.specs.Places.{layout_of};
ghost use Rattle.ladder_text.specs.Faults.{IsWellDrawn, IsIllDrawn};
ghost use Rattle.ladder_text.specs.FirstFault.{HasNoDrawFault, TellsFirstFault};
ghost use Rattle.ladder_text.specs.Steps.Search.{IsFirstUnlessMemory};
ghost use Rattle.ladder_text.specs.Picture.{picture_of};
ghost use Rattle.ladder_text.specs.declared.draw_fault.DrawFaultKind.TheVariants.{Memory};

use crate::draw_fault::DrawFault;
use crate::reading::read_well_drawn;
use crate::refusal::Refusal;
use crate::symbols::{Symbols, drawn_boxes};
use drawings::Drawing;
use ladder_rows::{boxes_are_whole, rows_are_within};
use std::alloc::Global;

#[tactic(auto, unfolding(crate::specs::Picture::picture_of, crate::specs::Places::layout_of))]
fn read_drawing(alloc: Global, text: &str, first_line: u64) -> Result<Drawing, Refusal>
    ensures well_drawn { IfOk result (λ _. IsWellDrawn (rows_of text.now)) }
    ensures drawing { IfOk result (λ g. g ≡ picture_of first_line (layout_of (rows_of text.now))) }
    ensures refused { IfErr result (λ e. e.kind ≢ Memory → IsIllDrawn (rows_of text.now)) }
    ensures first { IfErr result (λ e. IsFirstUnlessMemory (rows_of text.now) e.kind e.place) }
{
    boxes_are_whole();
    let worded = read_well_drawn(alloc, text)?;
    let symbols = Symbols::of(alloc, &worded)?;
    let boxes = drawn_boxes(alloc, &worded)?;
    let grid = worded.marked().grid();
    let rows = grid.row_end().saturating_sub(1);
    let columns = grid.last();
    let left = grid.left();
    let marks = worded.into_marked().into_marks(alloc)?;
    Ok(Drawing::of(
        first_line,
        rows,
        columns,
        left,
        marks,
        symbols.contacts,
        symbols.coils,
        boxes,
    ))
}

/// What is read from a text.
pub trait ReadText: Sized {
    /// Reads a text whose first line has the number `first_line`, from 1 to 9,223,372,036,854,775,807.
    ///
    /// A text is refused by the first fault, by row and then column, of the first kind of `DrawFaultKind` that it has.
    fn read(alloc: Global, text: &str, first_line: u64) -> Result<Self, DrawFault>
        requires { (1 ≤ first_line) × (first_line < 2 ^ 63) };
}

impl ReadText for Drawing {
    fn read(alloc: Global, text: &str, first_line: u64) -> Result<Drawing, DrawFault>
        requires { (1 ≤ first_line) × (first_line < 2 ^ 63) }
        ensures well_drawn { IfOk result (λ _. IsWellDrawn (rows_of text.now)) }
        ensures drawing { IfOk result (λ g. g ≡ picture_of first_line (layout_of (rows_of text.now))) }
        ensures refused { IfErr result (λ e. e.kind ≢ Memory → IsIllDrawn (rows_of text.now)) }
        ensures memory { IfErr result (λ e. e.kind ≡ Memory → (e.line ≡ 0) × (e.column ≡ 0)) }
        ensures first { IfErr result (λ fault. TellsFirstFault text.now first_line fault) }
        ensures same { IsWellDrawn (rows_of text.now) ↔ HasNoDrawFault (rows_of text.now) }
    {
        boxes_are_whole();
        rows_are_within();
        match read_drawing(alloc, text, first_line) {
            Ok(drawing) => Ok(drawing),
            Err(refusal) => Err(refusal.on_lines(first_line)),
        }
    }
}
