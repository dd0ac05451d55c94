//! Which rows of a drawing belong together.

use crate::comment_sign::comment_sign;
use crate::rows::{is_drawn, leftmost, row_at, sign_at};
use words::is_word_char;

/// Rows of a text, from the first up to the end, which isn't one of them.
#[derive(Clone, Copy)]
pub struct Part {
    pub first: usize,
    pub end: usize,
}

fn is_line(sign: u8) -> bool {
    sign == b'|' || sign == b'+'
}

/// Whether anything is drawn in a column of a row, or beside it.
fn is_drawn_near(row: &str, column: usize) -> bool {
    sign_at(row, column.saturating_sub(1)) != b' '
        || sign_at(row, column) != b' '
        || sign_at(row, column.saturating_add(1)) != b' '
}

/// Whether the sign in a column stands inside a contact or a coil.
fn is_in_a_symbol(row: &str, column: usize) -> bool {
    let left = sign_at(row, column.saturating_sub(1));
    let right = sign_at(row, column.saturating_add(1));
    (left == b'|' && right == b'|') || (left == b'(' && right == b')')
}

/// Whether a `|` or `+` stands in a column of a row right of the rail.
fn has_line(row: &str, column: usize, rail: usize) -> bool {
    rail < column && is_line(sign_at(row, column))
}

/// Whether a `|` or `+` stands in a column of a row or beside it, right of the rail.
fn has_line_near(row: &str, column: usize, rail: usize) -> bool {
    has_line(row, column.saturating_sub(1), rail)
        || has_line(row, column, rail)
        || has_line(row, column.saturating_add(1), rail)
}

/// Whether what stands in a column of a row goes with what stands in the row below: an upright or the side of a box, if
/// need be one column off, or a word above a symbol.
fn is_tied_in(above: &str, below: &str, column: usize, rail: usize) -> bool {
    let sign = sign_at(above, column);
    if is_line(sign) {
        has_line_near(below, column, rail)
    } else {
        is_word_char(sign) && !is_in_a_symbol(above, column) && is_drawn_near(below, column)
    }
}

/// Whether a row has signs by whose bytes its columns can't be counted.
fn is_odd(row: &str) -> bool {
    row.trim_end()
        .as_bytes()
        .iter()
        .any(|sign| *sign < b' ' || b'~' < *sign)
}

/// Whether two rows that are no comments, of which one stands right below the other, belong together.
fn are_joined(above: &str, below: &str, rail: usize) -> bool {
    let first = rail.saturating_add(1);
    is_odd(above)
        || is_odd(below)
        || (first..above.len()).any(|column| is_tied_in(above, below, column, rail))
}

/// Whether two rows, of which one stands right below the other, belong together. The rail doesn't join them.
fn are_tied(above: &str, below: &str, rail: usize) -> bool {
    is_drawn(above)
        && is_drawn(below)
        && comment_sign(above).is_none()
        && comment_sign(below).is_none()
        && are_joined(above, below, rail)
}

/// The topmost of the rows that belong together with one.
fn top_of(rows: &[&str], part: Part, row: usize, rail: usize) -> usize {
    let mut top = row;
    for above in (part.first..row).rev() {
        if !are_tied(row_at(rows, above), row_at(rows, top), rail) {
            return top;
        }
        top = above;
    }
    top
}

/// The row behind those that belong together with one.
fn end_of(rows: &[&str], part: Part, row: usize, rail: usize) -> usize {
    let mut last = row;
    for below in row.saturating_add(1)..part.end {
        if !are_tied(row_at(rows, last), row_at(rows, below), rail) {
            return below;
        }
        last = below;
    }
    last.saturating_add(1)
}

/// The column of the rail in a part of the rows.
pub fn rail_of(rows: &[&str], part: Part) -> usize {
    leftmost(rows.get(part.first..part.end).unwrap_or(&[]))
}

/// The rows that belong together with one of a part.
pub fn rung_of(rows: &[&str], part: Part, row: usize, rail: usize) -> Part {
    Part {
        first: top_of(rows, part, row, rail),
        end: end_of(rows, part, row, rail),
    }
}
