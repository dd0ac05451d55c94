//! Rows of a text, and the signs in them, both counted from 0.

ghost use Rattle.std.specs.Prelude.{◌≡◌, map, IfOk};
ghost use Rattle.slips.specs.Rows.{rows_of, sign_at};

use std::alloc::{AllocError, Global};

/// The rows of a text.
pub fn rows_of<'a>(alloc: Global, text: &'a str) -> Result<Vec<&'a str>, AllocError>
    ensures { IfOk result (λ rows. map (λ row. row.now) rows.items ≡ rows_of text.now) }
{
    let mut rows = Vec::new(alloc);
    for row in text.split('\n') {
        rows.push(row)?;
    }
    Ok(rows)
}

/// A row; empty where there is none.
pub fn row_at<'a>(rows: &[&'a str], row: usize) -> &'a str {
    rows.get(row).copied().unwrap_or("")
}

/// The sign of a row in a column; a blank behind its end.
pub fn sign_at(row: &str, column: usize) -> u8
    ensures { result ≡ sign_at row.now column }
{
    row.as_bytes().get(column).copied().unwrap_or(b' ')
}

/// Whether a sign is one of these.
pub fn is_among(sign: u8, signs: &[u8]) -> bool {
    signs.contains(&sign)
}

/// How many blanks a row begins with.
fn indented(row: &str) -> usize {
    row.as_bytes()
        .iter()
        .take_while(|sign| **sign == b' ')
        .count()
}

/// A row without the blanks that it begins with.
pub fn blanks_aside(row: &str) -> &[u8] {
    row.as_bytes().get(indented(row)..).unwrap_or(b"")
}

/// Whether anything is drawn in a row.
pub fn is_drawn(row: &str) -> bool {
    !row.trim().is_empty()
}

/// The leftmost column of some rows in which anything is drawn.
pub fn leftmost(rows: &[&str]) -> usize {
    let mut leftmost = usize::MAX;
    for row in rows {
        if is_drawn(row) {
            leftmost = leftmost.min(indented(row));
        }
    }
    leftmost
}
