//! The text as rows of characters.

ghost use Rattle.std.specs.Prelude.{ℕ, [], IsTrue, IsFalse, IfNone, IfSome, ◌-◌, ◌≤◌, take, drop, ◌≡◌, ◌∷◌, ◌<◌, IfOk, length, slice_index_or};
ghost use Rattle.words.specs.Lines.{without_last};
ghost use Rattle.ladder_rows.specs.Rows.{trimmed, rows_of, char_at, width};
ghost use Rattle.ladder_rows.specs.Boxes.{cut, is_blank_column, left_column};
ghost use Rattle.words.specs.Chars.{between};
ghost use Rattle.ladder_rows.specs.Faults.{not_ascii, PassesInRows, IsFirstAt};

use drawings::Place;
use std::alloc::{AllocError, Global};
use std::marker::Model;

/// A row: a blank margin, and then the characters.
#[derive(Drop)]
pub struct Row {
    cells: Vec<u8>,
}

impl Model for Row {
    ghost use Rattle.std.specs.Prelude.{List, ℕ};

    ghost Value = { List ℕ };

    ghost view = { λ r. r.cells.items };
}

/// The text without its last byte, where that is `byte`.
fn without_last(byte: u8, text: &[u8]) -> &[u8]
    ensures { result.now ≡ without_last byte text.now }
{
    match text {
        [front @ .., last] if *last == byte => front,
        _ => text,
    }
}

pub fn trimmed(line: &[u8]) -> &[u8]
    ensures { result.now ≡ trimmed line.now }
{
    let mut end = line.len();
    while end > 0 && line[end - 1] == b' ' {
        end -= 1;
    }
    &line[..end]
}

fn row_of(alloc: Global, line: &[u8]) -> Result<Row, AllocError>
    ensures { IfOk result (λ row. row ≡ 32 ∷ trimmed (without_last 13 line.now)) }
{
    let drawn = trimmed(without_last(b'\r', line));
    let mut cells = Vec::with_capacity(alloc, drawn.len().saturating_add(1))?;
    cells.push(b' ')?;
    cells.extend_from_slice(drawn)?;
    Ok(Row { cells })
}

pub fn rows_of(alloc: Global, text: &str) -> Result<Vec<Row>, AllocError>
    ensures { IfOk result (λ rows. rows.items ≡ rows_of text.now) }
{
    let mut rows = Vec::new(alloc);
    rows.push(Row {
        cells: Vec::new(alloc),
    })?;
    for line in without_last(b'\n', text.as_bytes()).split(|b| *b == b'\n') {
        rows.push(row_of(alloc, line)?)?;
    }
    Ok(rows)
}

impl Row {
    pub(crate) fn len(&self) -> usize
        ensures { result ≡ length self.now }
    {
        self.cells.len()
    }

    /// Whether each character is one of 32 to 126. Each is looked at, so that many are at once.
    fn is_printable(&self) -> bool
        ensures { IsTrue result → (c : ℕ) → IsTrue (between 32 (slice_index_or self.now c 32) 126) }
    {
        let mut printable = true;
        for c in &self.cells {
            printable &= (32 <= *c) & (*c <= 126);
        }
        printable
    }

    /// The first column whose character is none of 32 to 126.
    fn first_unprintable(&self) -> Option<usize>
        ensures none { IfNone result ((c : ℕ) → IsTrue (between 32 (slice_index_or self.now c 32) 126)) }
        ensures inside { IfSome result (λ c. c < length self.now) }
        ensures some { IfSome result (λ c. IsFalse (between 32 (slice_index_or self.now c 32) 126)) }
        ensures before { IfSome result (λ c. (k : ℕ) → k < c → IsTrue (between 32 (slice_index_or self.now k 32) 126)) }
    {
        if self.is_printable() {
            return None;
        }
        for (column, c) in self.cells.iter().enumerate() {
            if !(32 <= *c && *c <= 126) {
                return Some(column);
            }
        }
        None
    }

    /// The characters from one column up to, and without, another.
    fn cut(&self, from: usize, to: usize) -> &[u8]
        ensures { result.now ≡ take (to - from) (drop from self.now) }
    {
        let cells = self.cells.as_slice();
        let rest = &cells[from.min(cells.len())..];
        &rest[..to.saturating_sub(from).min(rest.len())]
    }

    fn as_slice(&self) -> &[u8]
        ensures { result.now ≡ self.now }
    {
        &self.cells
    }

    fn at(&self, column: usize) -> u8
        ensures { result ≡ slice_index_or self.now column 32 }
    {
        self.cells.get(column).copied().unwrap_or(b' ')
    }
}

pub fn char_at(rows: &[Row], row: usize, column: usize) -> u8
    ensures { result ≡ char_at rows.now row column }
{
    match rows.get(row) {
        Some(row) => row.at(column),
        None => b' ',
    }
}

/// The characters of a row behind its margin.
pub fn cells_of(rows: &[Row], row: usize) -> &[u8]
    ensures { result.now ≡ slice_index_or rows.now row [] }
{
    match rows.get(row) {
        Some(row) => row.as_slice(),
        None => &[],
    }
}

pub fn cut(rows: &[Row], row: usize, from: usize, to: usize) -> &[u8]
    ensures { result.now ≡ cut rows.now row from to }
{
    match rows.get(row) {
        Some(row) => row.cut(from, to),
        None => &[],
    }
}

/// The last column in which something is drawn.
pub fn width(rows: &[Row]) -> usize
    ensures { result ≡ width rows.now }
{
    rows.iter()
        .map(|row| row.len())
        .fold(0usize, |most, len| most.max(len))
        .saturating_sub(1)
}

fn is_blank_column(rows: &[Row], column: usize) -> bool
    ensures { result ≡ is_blank_column rows.now column }
{
    rows.iter().all(|row| row.at(column) == b' ')
}

/// The first column in which something is drawn.
pub fn left_column(rows: &[Row], last: usize) -> usize
    requires last { last ≡ width rows.now }
    requires narrow { last ≤ 240 }
    ensures { result ≡ left_column rows.now }
{
    let mut column = 0;
    while column <= last && is_blank_column(rows, column) {
        column += 1;
    }
    column
}

/// The first place with a character outside 32 to 126.
pub fn first_not_ascii(rows: &[Row]) -> Option<Place>
    ensures none { IfNone result ((r c : ℕ) → r < length rows.now → IsFalse (not_ascii rows.now r c)) }
    ensures some { IfSome result (λ p. PassesInRows rows.now (not_ascii rows.now) p.row p.column) }
    ensures first { IfSome result (λ p. IsFirstAt (PassesInRows rows.now (not_ascii rows.now)) p.row p.column) }
{
    for (row, cells) in rows.iter().enumerate() {
        if let Some(column) = cells.first_unprintable() {
            return Some(Place { row, column });
        }
    }
    None
}
