//! Reading a text: its faults are sought kind by kind, each over the whole text.

ghost use Rattle.std.specs.Prelude.{◌≡◌, ◌≢◌, ◌<◌, ◌≤◌, ◌-◌, ℕ, IfOk, IfErr, IfNone, IfSome, IsFalse, IsTrue, length};
ghost use Rattle.ladder_rows.specs.Rows.{rows_of, width};
ghost use Rattle.ladder_text.specs.Places.{layout_of};
ghost use Rattle.ladder_text.specs.Faults.{IsWellDrawn, IsIllDrawn, has_fault, boxes_apart, has_unnamed, has_stray_word, has_stray_operand};
ghost use Rattle.ladder_rows.specs.Faults.{NowhereInRows, InNoRow, not_ascii, no_left_rail, bad_box};
ghost use Rattle.ladder_text.specs.FirstFault.{IsStrayWordAt};
ghost use Rattle.ladder_text.specs.Steps.Search.{IsFirstFrom, IsFirstOf, IsFirstUnlessMemory};
ghost use Rattle.ladder_text.specs.declared.draw_fault.DrawFaultKind.TheVariants.{Memory};

use crate::draw_fault::DrawFaultKind;
use crate::earlier::or_earlier;
use crate::names::names_above::{stray_in_row, unnamed_in_row};
use crate::names::worded_grid::WordedGrid;
use crate::places::marked_grid::MarkedGrid;
use crate::places::place_fault::PlaceFault;
use crate::refusal::Refusal;
use drawings::Place;
use ladder_rows::{Grid, boxes_are_whole, first_bad_box, first_not_ascii, rows_of};
use std::alloc::{AllocError, Global};

fn fault(kind: DrawFaultKind, place: Place) -> Refusal
    ensures { result ≡ record { kind = kind; place = place } }
{
    Refusal { kind, place }
}

#[tactic(auto, using(crate::proofs::Faults::FirstFaults::mark_first, crate::proofs::Faults::FirstFaults::crossing_first, crate::proofs::Faults::FirstFaults::source_first))]
fn check_places(marked: &MarkedGrid) -> Result<(), Refusal>
    ensures none { IfOk result (λ _. (f : PlaceFault) → NowhereInRows marked.now (has_fault f (layout_of marked.now))) }
    ensures refused { IfErr result (λ _. IsIllDrawn marked.now) }
    ensures first { IfErr result (λ e. IsFirstFrom marked.now 5 e.kind e.place.row e.place.column) }
{
    if marked.is_fine_everywhere() {
        return Ok(());
    }
    if let Some(place) = marked.first_fault(PlaceFault::BadMark) {
        return Err(fault(DrawFaultKind::BadMark, place));
    }
    if let Some(place) = marked.first_fault(PlaceFault::Crossing) {
        return Err(fault(DrawFaultKind::Crossing, place));
    }
    if let Some(place) = marked.first_fault(PlaceFault::NoSource) {
        return Err(fault(DrawFaultKind::NoSource, place));
    }
    Ok(())
}

#[tactic(auto, using(crate::proofs::Faults::IllDrawn::ill_missing, crate::proofs::Faults::FirstFaults::unnamed_first))]
fn check_names(alloc: Global, worded: &WordedGrid) -> Result<(), Refusal>
    ensures named { IfOk result (λ _. InNoRow worded.now (has_unnamed (layout_of worded.now))) }
    ensures refused { IfErr result (λ e. e.kind ≢ Memory → IsIllDrawn worded.now) }
    ensures first { IfErr result (λ e. e.kind ≢ Memory → IsFirstFrom worded.now 8 e.kind e.place.row e.place.column) }
{
    for row in 0..worded.marked().grid().row_end() {
        if let Some(column) = unnamed_in_row(alloc, worded, row)? {
            return Err(fault(DrawFaultKind::NameMissing, Place { row, column }));
        }
    }
    Ok(())
}

/// The first stray word that is no operand.
#[tactic(auto, using(crate::proofs::Faults::FirstFaults::word_first, crate::proofs::Faults::FirstFaults::none_word))]
fn first_stray_word(alloc: Global, worded: &WordedGrid) -> Result<Option<Place>, AllocError>
    ensures none { IfOk result (λ found. IfNone found (InNoRow worded.now (has_stray_word (layout_of worded.now)))) }
    ensures inside { IfOk result (λ found. IfSome found (λ p. p.row < length worded.now)) }
    ensures some { IfOk result (λ found. IfSome found (λ p. IsTrue (has_stray_word (layout_of worded.now) p.row))) }
    ensures first { IfOk result (λ found. IsFirstOf (IsStrayWordAt worded.now) found) }
{
    for row in 0..worded.marked().grid().row_end() {
        if let Some(column) = stray_in_row(alloc, worded, row)? {
            return Ok(Some(Place { row, column }));
        }
    }
    Ok(None)
}

#[tactic(auto, using(crate::proofs::Faults::IllDrawn::ill_stray, crate::proofs::Faults::IllDrawn::ill_operand, crate::proofs::Faults::FirstFaults::stray_first, crate::proofs::Faults::FirstFaults::operand_first))]
fn check_strays(alloc: Global, worded: &WordedGrid) -> Result<(), Refusal>
    ensures words { IfOk result (λ _. InNoRow worded.now (has_stray_word (layout_of worded.now))) }
    ensures operands { IfOk result (λ _. IsFalse (has_stray_operand (layout_of worded.now))) }
    ensures refused { IfErr result (λ e. e.kind ≢ Memory → IsIllDrawn worded.now) }
    ensures first { IfErr result (λ e. e.kind ≢ Memory → IsFirstFrom worded.now 9 e.kind e.place.row e.place.column) }
{
    let operand = worded.marked().first_stray_operand();
    match first_stray_word(alloc, worded)? {
        Some(word) => Err(fault(DrawFaultKind::StrayName, or_earlier(word, operand))),
        None => match operand {
            Some(place) => Err(fault(DrawFaultKind::StrayName, place)),
            None => Ok(()),
        },
    }
}

#[tactic(auto, using(crate::proofs::Faults::IllDrawn::ill_ascii, crate::proofs::Faults::IllDrawn::ill_large, crate::proofs::Faults::IllDrawn::ill_empty, crate::proofs::Faults::IllDrawn::ill_rail, crate::proofs::Faults::FirstFaults::ascii_first, crate::proofs::Faults::FirstFaults::large_first, crate::proofs::Faults::FirstFaults::empty_first, crate::proofs::Faults::FirstFaults::rail_first))]
fn read_grid(alloc: Global, text: &str) -> Result<Grid, Refusal>
    ensures same { IfOk result (λ g. g ≡ rows_of text.now) }
    ensures ascii { IfOk result (λ g. NowhereInRows g (not_ascii g)) }
    ensures low { IfOk result (λ g. length g ≤ 2001) }
    ensures narrow { IfOk result (λ g. width g ≤ 240) }
    ensures drawn { IfOk result (λ g. 0 < width g) }
    ensures left_rail { IfOk result (λ g. InNoRow g (no_left_rail g)) }
    ensures refused { IfErr result (λ e. e.kind ≢ Memory → IsIllDrawn (rows_of text.now)) }
    ensures first { IfErr result (λ e. IsFirstUnlessMemory (rows_of text.now) e.kind e.place) }
{
    let rows = rows_of(alloc, text)?;
    if let Some(place) = first_not_ascii(&rows) {
        return Err(fault(DrawFaultKind::NotAscii, place));
    }
    let grid = match Grid::new(rows) {
        Ok(grid) => grid,
        Err(place) => return Err(fault(DrawFaultKind::TooLarge, place)),
    };
    if grid.last() == 0 {
        return Err(fault(DrawFaultKind::NoLeftRail, Place { row: 1, column: 1 }));
    }
    if let Some(row) = grid.first_off_rail() {
        let column = grid.left();
        return Err(fault(DrawFaultKind::NoLeftRail, Place { row, column }));
    }
    Ok(grid)
}

#[tactic(auto, using(crate::proofs::Faults::IllDrawn::ill_box, crate::proofs::Faults::IllDrawn::ill_apart, crate::proofs::Faults::FirstFaults::box_first, crate::proofs::Faults::FirstFaults::shared_first))]
fn read_boxes(alloc: Global, grid: Grid) -> Result<MarkedGrid, Refusal>
    ensures same { IfOk result (λ s. s ≡ grid) }
    ensures whole { IfOk result (λ s. NowhereInRows s (bad_box s)) }
    ensures apart { IfOk result (λ s. IsTrue (boxes_apart (layout_of s))) }
    ensures refused { IfErr result (λ e. e.kind ≢ Memory → IsIllDrawn grid) }
    ensures first { IfErr result (λ e. e.kind ≢ Memory → IsFirstFrom grid 4 e.kind e.place.row e.place.column) }
{
    let bad = first_bad_box(alloc, &grid)?;
    let boxed = MarkedGrid::with_boxes(alloc, grid)?;
    let shared = boxed.first_shared_box();
    if let Some(place) = bad {
        return Err(fault(DrawFaultKind::BadBox, or_earlier(place, shared)));
    }
    match shared {
        None => Ok(boxed),
        Some(place) => Err(fault(DrawFaultKind::BadBox, place)),
    }
}

/// The rows of a text that is well drawn, with all that is known of them.
pub fn read_well_drawn(alloc: Global, text: &str) -> Result<WordedGrid, Refusal>
    ensures same { IfOk result (λ p. p ≡ rows_of text.now) }
    ensures well_drawn { IfOk result (λ p. IsWellDrawn p) }
    ensures refused { IfErr result (λ e. e.kind ≢ Memory → IsIllDrawn (rows_of text.now)) }
    ensures first { IfErr result (λ e. IsFirstUnlessMemory (rows_of text.now) e.kind e.place) }
{
    boxes_are_whole();
    let grid = read_grid(alloc, text)?;
    let boxed = read_boxes(alloc, grid)?;
    let marked = boxed.with_marks(alloc)?;
    check_places(&marked)?;
    let worded = WordedGrid::new(alloc, marked)?;
    check_names(alloc, &worded)?;
    check_strays(alloc, &worded)?;
    Ok(worded)
}
