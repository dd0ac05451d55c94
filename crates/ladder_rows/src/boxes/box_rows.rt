//! The boxes of a text, and which of them have a row.

ghost use Rattle.std.specs.Prelude.{◌≡◌, ◌==◌, ◌<◌, ◌^◌, ℕ, [], map, length, slice_index_or, OnOk, IfOk, IsTrue};
ghost use Rattle.std.specs.List.{list_any, filter, filter_map};
ghost use Rattle.drawings.specs.declared.drawn_box.Side.TheVariants as side;
ghost use Rattle.ladder_rows.specs.Boxes.{outlines};
ghost use Rattle.ladder_rows.specs.BoxTests.{top_span, some_takes_word};
ghost use Rattle.ladder_rows.specs.Steps.RowBoxes.{box_test, word_test, HavePinsByRow, holds_at, numbers_on, AreNumbered, IsAddedToItsRows, IsSameAbove, IsSameBelow, top_at, IsBare};

use crate::boxes::box_test::BoxTest;
use crate::boxes::outline::Outline;
use crate::boxes::outlines::outlines;
use crate::boxes::row_numbers::RowNumbers;
use crate::characters::grid::Grid;
use crate::span::Span;
use drawings::Side;
use std::alloc::{AllocError, Global};
use std::marker::Model;

/// The boxes of a text by row and then column, and for each row the numbers of those that have it.
#[derive(Drop)]
pub struct Boxes {
    outlines: Vec<Outline>,
    by_row: Vec<RowNumbers>,
}

impl Model for Boxes {
    ghost use Rattle.std.specs.Prelude.{List};
    ghost use Rattle.ladder_rows.specs.declared.boxes.outline.Outline.{Outline};
    ghost use Rattle.ladder_rows.specs.Steps.RowBoxes.{AreKeptByRow};

    ghost Value = { List Outline };

    ghost view = { λ b. b.outlines.items };

    ghost invariant = { λ b. AreKeptByRow b.outlines.items b.by_row.items };
}

/// So many rows without boxes.
fn bare_rows(alloc: Global, rows: usize) -> Result<Vec<RowNumbers>, AllocError>
    ensures rows { IfOk result (λ v. length v.items ≡ rows) }
    ensures bare { IfOk result (λ v. (k : ℕ) → k < rows → slice_index_or v.items k [] ≡ []) }
{
    let mut all = Vec::new(alloc);
    for row in 0..rows {
        all.push(RowNumbers::new(alloc))?;
    }
    Ok(all)
}

/// Adds a box to each of its rows.
fn add_box(by_row: &mut Vec<RowNumbers>, number: usize, outline: &Outline) -> Result<(), AllocError>
    ensures rows { OnOk result (length by_row.new.items ≡ length by_row.old.items) }
    ensures here { OnOk result (IsAddedToItsRows outline.now number by_row.old.items by_row.new.items) }
    ensures above { OnOk result (IsSameAbove outline.now by_row.old.items by_row.new.items) }
    ensures below { OnOk result (IsSameBelow outline.now by_row.old.items by_row.new.items) }
{
    let end = outline.bottom.min(by_row.len());
    for index in outline.top.saturating_sub(1)..end {
        by_row[index].push(number)?;
    }
    Ok(())
}

/// For each row the numbers of its boxes.
fn numbers_by_row(
    alloc: Global,
    boxes: &[Outline],
    rows: usize,
) -> Result<Vec<RowNumbers>, AllocError>
    ensures rows { IfOk result (λ v. length v.items ≡ rows) }
    ensures numbers { IfOk result (λ v. AreNumbered boxes.now (length boxes.now) v.items) }
{
    let mut by_row = bare_rows(alloc, rows)?;
    for (number, outline) in boxes.iter().enumerate() {
        add_box(&mut by_row, number, outline)?;
    }
    Ok(by_row)
}

fn test_at(boxes: &[Outline], test: BoxTest, row: usize, column: usize, number: usize) -> bool
    requires column { column < 2 ^ 63 }
    requires pins { HavePinsByRow boxes.now }
    ensures { result ≡ holds_at boxes.now (box_test test row column) number }
{
    match boxes.get(number) {
        Some(outline) => outline.test(test, row, column),
        None => false,
    }
}

fn takes_word_at(boxes: &[Outline], side: Side, row: usize, column: usize, number: usize) -> bool
    requires { HavePinsByRow boxes.now }
    ensures { result ≡ holds_at boxes.now (word_test side row column) number }
{
    match boxes.get(number) {
        Some(outline) => outline.takes_word(side, row, column),
        None => false,
    }
}

fn top_at(boxes: &[Outline], row: usize, number: usize) -> Option<Span>
    ensures { result ≡ top_at boxes.now row number }
{
    match boxes.get(number) {
        Some(outline) if outline.top == row => Some(outline.top_span()),
        _ => None,
    }
}

/// The top sides of those of some boxes that begin in a row.
fn tops_at(
    alloc: Global,
    boxes: &[Outline],
    numbers: &[usize],
    row: usize,
) -> Result<Vec<Span>, AllocError>
    ensures { IfOk result (λ v. v.items ≡ filter_map (top_at boxes.now row) numbers.now) }
{
    numbers
        .iter()
        .filter_map(|number| top_at(boxes, row, *number))
        .collect(alloc)
}

fn any_test(boxes: &[Outline], numbers: &[usize], test: BoxTest, row: usize, column: usize) -> bool
    requires column { column < 2 ^ 63 }
    requires pins { HavePinsByRow boxes.now }
    ensures { result ≡ list_any (holds_at boxes.now (box_test test row column)) numbers.now }
{
    numbers
        .iter()
        .any(|number| test_at(boxes, test, row, column, *number))
}

fn any_takes_word(
    boxes: &[Outline],
    numbers: &[usize],
    side: Side,
    row: usize,
    column: usize,
) -> bool
    requires { HavePinsByRow boxes.now }
    ensures { result ≡ list_any (holds_at boxes.now (word_test side row column)) numbers.now }
{
    numbers
        .iter()
        .any(|number| takes_word_at(boxes, side, row, column, *number))
}

impl Boxes {
    /// The boxes of a grid.
    pub fn new(alloc: Global, grid: &Grid) -> Result<Boxes, AllocError>
        ensures { IfOk result (λ b. b ≡ outlines grid.now) }
    {
        let outlines = outlines(alloc, grid)?;
        let by_row = numbers_by_row(alloc, &outlines, grid.row_end().saturating_sub(1))?;
        Ok(Boxes { outlines, by_row })
    }

    /// The boxes by row and then column.
    pub fn as_slice(&self) -> &[Outline]
        ensures { result.now ≡ self.now }
    {
        &self.outlines
    }

    /// The numbers of the boxes that have a row.
    pub fn on_row(&self, row: usize) -> &[usize]
        ensures { result.now ≡ numbers_on self.now row }
    {
        let by_row = &self.by_row;
        if row == 0 {
            return &[];
        }
        match by_row.get(row - 1) {
            Some(numbers) => numbers.as_slice(),
            None => &[],
        }
    }

    /// Whether a box passes a test at a place.
    pub fn any(&self, test: BoxTest, row: usize, column: usize) -> bool
        requires { column < 2 ^ 63 }
        ensures { result ≡ list_any (box_test test row column) self.now }
    {
        any_test(&self.outlines, self.on_row(row), test, row, column)
    }

    /// Whether no box has a row.
    pub fn is_bare(&self, row: usize) -> bool
        ensures { IsTrue result → IsBare self.now row }
    {
        self.on_row(row).is_empty()
    }

    /// Whether the operand of a pin on a side begins at a place.
    pub fn any_takes_word(&self, side: Side, row: usize, column: usize) -> bool
        ensures { result ≡ some_takes_word self.now side row column }
    {
        any_takes_word(&self.outlines, self.on_row(row), side, row, column)
    }

    /// The top sides of the boxes that begin in a row.
    pub fn tops(&self, alloc: Global, row: usize) -> Result<Vec<Span>, AllocError>
        ensures { IfOk result (λ v. v.items ≡ map top_span (filter (λ b. b.top == row) self.now)) }
    {
        tops_at(alloc, &self.outlines, self.on_row(row), row)
    }
}
