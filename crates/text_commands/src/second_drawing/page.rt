//! Two drawings as one text.

ghost use Rattle.std.specs.Prelude.{◌≡◌, IfOk, length, string_bytes};
ghost use Rattle.text_commands.specs.SecondDrawing.{empty_rows, one_below_other};

use crate::live_drawing::without_feed;
use crate::second_drawing::drawn_graph::DrawnGraph;
use drawings::{Drawing, Mark};
use std::alloc::{AllocError, Global};

/// The first drawing, an empty row, and the second one.
pub(crate) fn one_below_other(
    alloc: Global,
    first: &str,
    second: &str,
) -> Result<String, AllocError>
    ensures { IfOk result (λ text. string_bytes text ≡ one_below_other first.now second.now) }
{
    let mut text = String::from_str(alloc, without_feed(first))?;
    text.push_str("\n\n")?;
    text.push_str(second)?;
    Ok(text)
}

/// As many empty rows as the first drawing has rows, and one more.
pub(crate) fn empty_rows(alloc: Global, first: &str) -> Result<String, AllocError>
    ensures { IfOk result (λ rows. string_bytes rows ≡ empty_rows first.now) }
{
    let mut rows = String::new(alloc);
    for letter in without_feed(first).as_bytes() {
        if *letter == b'\n' {
            rows.push_str("\n")?;
        }
    }
    rows.push_str("\n\n")?;
    Ok(rows)
}

/// How many rows these empty rows are.
pub(crate) fn row_count(rows: &str) -> usize
    ensures { result ≡ length rows.now }
{
    rows.len()
}

/// Whether a column has a part of a rail.
fn has_rail(drawing: &Drawing, column: usize) -> bool {
    for row in 0..drawing.rows() {
        if drawing.mark(row + 1, column) == Mark::Rail {
            return true;
        }
    }
    false
}

/// Whether a drawing has a right rail, in its last column.
fn has_right_rail(drawing: &Drawing) -> bool {
    drawing.left() < drawing.columns() && has_rail(drawing, drawing.columns())
}

/// The column of a right rail that can't stand beside another drawing: one that is wider, or has no right rail there.
fn column_to_clear(drawing: &Drawing, other: &Drawing) -> Option<usize> {
    let fits = other.columns() < drawing.columns()
        || (other.columns() == drawing.columns() && has_right_rail(other));
    if has_right_rail(drawing) && !fits {
        Some(drawing.columns())
    } else {
        None
    }
}

/// Adds a row, without what stands in a column.
fn push_row(page: &mut String, row: &str, cleared: Option<usize>) -> Result<(), AllocError> {
    for (k, sign) in row.chars().enumerate() {
        let is_cleared = cleared.is_some_and(|column| k == column.saturating_sub(1));
        page.push(if is_cleared { ' ' } else { sign })?;
    }
    page.push('\n')
}

/// The column that is cleared in a row, if a part of a rail stands there.
fn cleared_in(drawing: &Drawing, row: usize, column: Option<usize>) -> Option<usize> {
    match column {
        Some(column) if drawing.mark(row, column) == Mark::Rail => Some(column),
        _ => None,
    }
}

/// Adds the rows of a drawing behind the first so many, without the parts of a rail in a column.
fn push_rows(
    page: &mut String,
    drawn: &DrawnGraph,
    omitted: usize,
    column: Option<usize>,
) -> Result<(), AllocError> {
    for (k, row) in without_feed(drawn.text.as_str()).split('\n').enumerate() {
        if omitted <= k {
            let cleared = cleared_in(&drawn.drawing, k.saturating_add(1), column);
            push_row(page, row, cleared)?;
        }
    }
    Ok(())
}

/// Adds empty rows behind so many rows, up to so many in all.
fn pad(page: &mut String, written: usize, rows: usize) -> Result<(), AllocError> {
    for _row in written..rows {
        page.push('\n')?;
    }
    Ok(())
}

/// How many rows a text has; empty ones at its end, where comments stood, count but for the last.
fn rows_in(text: &str) -> usize {
    without_feed(text).split('\n').count()
}

/// The text of the first drawing and, below it, of the second, above which so many empty rows stand. Right rails that would
/// be lines beside the other drawing are left out: they do nothing.
pub(crate) fn page_of(
    alloc: Global,
    first: &DrawnGraph,
    second: &DrawnGraph,
    rows: usize,
) -> Result<String, AllocError> {
    let mut page = String::new(alloc);
    let (one, other) = (&first.drawing, &second.drawing);
    push_rows(&mut page, first, 0, column_to_clear(one, other))?;
    pad(&mut page, rows_in(first.text.as_str()), rows)?;
    push_rows(&mut page, second, rows, column_to_clear(other, one))?;
    Ok(page)
}
