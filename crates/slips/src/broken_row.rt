//! The row in which a box is broken.

use crate::block_names::{Top, between, has_sides, top_at, word_between};
use crate::rows::{is_drawn, row_at, sign_at};
use words::{block_type, is_identifier};

/// What is wrong with a box.
#[derive(Clone, Copy, Debug, PartialEq, Eq)]
pub enum Break {
    LeftSide,
    RightSide,
    Bottom,
    NoBottom,
    Pins,
    PinName,
}

impl Break {
    /// What has to stand at the place.
    pub fn text(self) -> &'static str {
        match self {
            Break::LeftSide => "The left side has no | here, in the column of the corner.",
            Break::RightSide => "The right side has no | here, in the column of the corner.",
            Break::Bottom => "The bottom is as long as the top, without a gap: here is no - or +.",
            Break::NoBottom => "Below this row the bottom is missing.",
            Break::Pins => "This row has more words than a left and a right pin.",
            Break::PinName => {
                "This row has a word that is no pin's: these have letters and digits alone."
            }
        }
    }
}

/// What is wrong with a box, and where, by the row and the column, counted from 0.
#[derive(Clone, Copy)]
pub struct Broken {
    pub row: usize,
    pub column: usize,
    pub kind: Break,
}

/// The first column of a bottom side that isn't as it has to be.
fn gap_in(row: &str, top: Top) -> Option<usize> {
    let first = top.left.saturating_add(1);
    for column in first..top.right {
        if sign_at(row, column) != b'-' {
            return Some(column);
        }
    }
    if sign_at(row, top.right) == b'+' {
        None
    } else {
        Some(top.right)
    }
}

/// Whether a row of pins has too many words, or one that is no name of a pin.
fn break_of_pins(row: &str, top: Top) -> Option<Break> {
    let mut count: usize = 0;
    for word in between(row, top).split(|sign| *sign == b' ') {
        if !word.is_empty() {
            count = count.saturating_add(1);
            if !is_identifier(word) {
                return Some(Break::PinName);
            }
        }
    }
    if 2 < count { Some(Break::Pins) } else { None }
}

/// What is wrong with a row that is neither one of pins nor a bottom, by its column.
fn break_of_sides(row: &str, top: Top) -> (usize, Break) {
    let left = sign_at(row, top.left);
    if left == b'+' {
        (gap_in(row, top).unwrap_or(top.right), Break::Bottom)
    } else if left == b'|' || left == b'>' {
        (top.right, Break::RightSide)
    } else {
        (top.left, Break::LeftSide)
    }
}

/// Whether a row is the bottom of a box.
fn is_bottom(row: &str, top: Top) -> bool {
    sign_at(row, top.left) == b'+' && gap_in(row, top).is_none()
}

/// What is wrong with a row of a box. `None`: nothing.
fn break_in(row: &str, top: Top) -> Option<(usize, Break)> {
    if has_sides(row, top) {
        break_of_pins(row, top).map(|kind| (top.left.saturating_add(1), kind))
    } else {
        Some(break_of_sides(row, top))
    }
}

/// Whether a box begins at a place: its top side, and below it a block type between the sides.
fn begins_box(rows: &[&str], row: usize, left: usize) -> bool {
    let second = row_at(rows, row.saturating_add(1));
    match top_at(row_at(rows, row), left) {
        Some(top) => {
            has_sides(second, top)
                && word_between(second, top).is_some_and(|word| block_type(word).is_some())
        }
        None => false,
    }
}

/// A box that ends above a row without a bottom.
fn without_bottom(row: usize, top: Top) -> Broken {
    Broken {
        row: row.saturating_sub(1),
        column: top.left,
        kind: Break::NoBottom,
    }
}

/// What is wrong with a row of a box. `None`: nothing.
fn broken_row(rows: &[&str], row: usize, top: Top) -> Option<Broken> {
    let text = row_at(rows, row);
    if !is_drawn(text) {
        return Some(without_bottom(row, top));
    }
    let (column, kind) = break_in(text, top)?;
    Some(Broken { row, column, kind })
}

/// What is wrong with the box that begins at a place. `None`: nothing, or no box begins there.
pub fn broken_at(rows: &[&str], row: usize, left: usize) -> Option<Broken> {
    let top = top_at(row_at(rows, row), left)?;
    for below in row.saturating_add(2)..rows.len() {
        if is_bottom(row_at(rows, below), top) {
            return None;
        }
        if let Some(broken) = broken_row(rows, below, top) {
            return Some(broken);
        }
    }
    Some(without_bottom(rows.len(), top))
}

/// What is wrong with the first broken box that begins in a row. `None`: there is none.
pub fn broken_in(rows: &[&str], row: usize) -> Option<Broken> {
    for left in 0..row_at(rows, row).len() {
        if begins_box(rows, row, left)
            && let Some(broken) = broken_at(rows, row, left)
        {
            return Some(broken);
        }
    }
    None
}
