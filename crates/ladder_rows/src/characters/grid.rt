//! The characters of a text, and where boxes begin.

ghost use Rattle.std.specs.Prelude.{◌≡◌, ◌<◌, ◌≤◌, ◌^◌, ℕ, [], IsFalse, IsTrue, IfNone, IfSome, IfOk, IfErr, length, slice_index_or};
ghost use Rattle.ladder_rows.specs.Rows.{char_at, width};
ghost use Rattle.ladder_rows.specs.Boxes.{left_column, begins_box, dashes_after, without_leading, cut, has_sides, block_in};
ghost use Rattle.ladder_rows.specs.Faults.{NowhereInRows, InNoRow, not_ascii, no_left_rail, IsFirstAt, IsTooLargeAt};
ghost use Rattle.ladder_rows.specs.Steps.Search.{first_long, first_beyond};
ghost use Rattle.std.specs.Str.{IsAscii};

use crate::characters::rows::{Row, cells_of, char_at, cut, left_column, trimmed, width};
use drawings::Place;
use std::marker::Model;
use std_blocks::BlockType;
use words::block_type;

/// The rows of a text, with the column of the left rail and the last column.
#[derive(Drop)]
pub struct Grid {
    rows: Vec<Row>,
    left: usize,
    last: usize,
}

impl Model for Grid {
    ghost use Rattle.ladder_rows.specs.Rows.{Rows};
    ghost use Rattle.ladder_rows.specs.Steps.Search.{AreMeasured};

    ghost Value = { Rows };

    ghost view = { λ s. s.rows.items };

    ghost invariant = { λ s. AreMeasured s.rows.items s.left s.last };
}

pub fn without_leading(text: &[u8]) -> &[u8]
    ensures { result.now ≡ without_leading text.now }
{
    let mut from = 0;
    while from < text.len() && text[from] == b' ' {
        from += 1;
    }
    &text[from..]
}

/// The first row of 2000 that is longer than 240 characters.
fn first_long(rows: &[Row]) -> Option<usize>
    ensures { result ≡ first_long rows.now }
{
    rows.iter().take(2001).position(|row| row.len() > 241)
}

/// The first place beyond the limits: column 241 of a row that is too long, or the row after the last that may be there.
fn first_beyond(rows: &[Row]) -> Place
    ensures { result ≡ first_beyond rows.now }
{
    match first_long(rows) {
        Some(row) => Place { row, column: 241 },
        None => Place {
            row: 2001,
            column: 1,
        },
    }
}

impl Grid {
    pub fn at(&self, row: usize, column: usize) -> u8
        ensures { result ≡ char_at self.now row column }
    {
        char_at(&self.rows, row, column)
    }

    /// The characters of a row behind its margin.
    pub fn cells(&self, row: usize) -> &[u8]
        ensures { result.now ≡ slice_index_or self.now row [] }
    {
        cells_of(&self.rows, row)
    }

    /// The character in a column of a row whose characters are at hand.
    #[tactic(auto, unfolding(crate::specs::Rows::char_at))]
    pub fn cell(&self, cells: &[u8], row: usize, column: usize) -> u8
        requires { cells.now ≡ slice_index_or self.now row [] }
        ensures { result ≡ char_at self.now row column }
    {
        let _ = row;
        cells.get(column).copied().unwrap_or(b' ')
    }

    /// The characters of a row from one column up to, and without, another.
    #[tactic(auto, using(crate::proofs::Rows::AsciiCharacters::cut_ascii))]
    pub fn cut(&self, row: usize, from: usize, to: usize) -> &[u8]
        ensures value { result.now ≡ cut self.now row from to }
        ensures ascii { IsAscii result.now }
    {
        cut(&self.rows, row, from, to)
    }

    pub fn left(&self) -> usize
        ensures { result ≡ left_column self.now }
    {
        self.left
    }

    pub fn last(&self) -> usize
        ensures last { result ≡ width self.now }
        ensures narrow { result ≤ 240 }
    {
        self.last
    }

    /// One more than the number of rows.
    pub fn row_end(&self) -> usize
        ensures rows { result ≡ length self.now }
        ensures few { result ≤ 2001 }
    {
        self.rows.len()
    }

    /// How many dashes follow a place.
    pub(crate) fn dashes_after(&self, row: usize, column: usize) -> usize
        requires { column < 2 ^ 62 }
        ensures dashes { result ≡ dashes_after self.now row column }
        ensures few { result ≤ 240 }
    {
        let limit = self.last().saturating_sub(column);
        let mut n = 0;
        while n < limit && self.at(row, column + 1 + n) == b'-' {
            n += 1;
        }
        n
    }

    #[tactic(auto, unfolding(crate::specs::Boxes::has_sides))]
    pub(crate) fn has_sides(&self, left: usize, right: usize, row: usize) -> bool
        ensures { result ≡ has_sides self.now left right row }
    {
        let side = self.at(row, left);
        (side == b'|' || side == b'>') && self.at(row, right) == b'|'
    }

    /// The block type alone in the row below a top side.
    pub(crate) fn block_in(&self, row: usize, column: usize) -> Option<BlockType>
        requires row { row < 2 ^ 62 }
        requires column { column < 2 ^ 62 }
        ensures { result ≡ block_in self.now row column }
    {
        let right = column + 1 + self.dashes_after(row, column);
        block_type(trimmed(without_leading(cut(&self.rows, row + 1, column + 1, right))))
    }

    /// Whether a box begins at a place.
    #[tactic(auto, unfolding(crate::specs::Boxes::begins_box))]
    pub(crate) fn begins_box(&self, row: usize, column: usize) -> bool
        requires row { row < 2 ^ 62 }
        requires column { column < 2 ^ 62 }
        ensures { result ≡ begins_box self.now row column }
    {
        if !(self.left() < column && self.at(row, column) == b'+') {
            return false;
        }
        let dashes = self.dashes_after(row, column);
        let right = column + 1 + dashes;
        0 < dashes
            && self.at(row, right) == b'+'
            && self.has_sides(column, right, row + 1)
            && self.block_in(row, column).is_some()
    }

    /// The grid of some rows, or the first place beyond the limits.
    pub fn new(rows: Vec<Row>) -> Result<Grid, Place>
        requires { NowhereInRows rows.items (not_ascii rows.items) }
        ensures same { IfOk result (λ g. g ≡ rows.items) }
        ensures low { IfOk result (λ g. length g ≤ 2001) }
        ensures narrow { IfOk result (λ g. width g ≤ 240) }
        ensures refused { IfErr result (λ _. length rows.items ≤ 2001 → width rows.items ≤ 240 → ⊥) }
        ensures place { IfErr result (λ p. p ≡ first_beyond rows.items) }
        ensures first { IfErr result (λ p. IsFirstAt (IsTooLargeAt rows.items) p.row p.column) }
    {
        let last = width(&rows);
        if rows.len() > 2001 || last > 240 {
            return Err(first_beyond(&rows));
        }
        let left = left_column(&rows, last);
        Ok(Grid { rows, left, last })
    }

    #[tactic(auto, unfolding(crate::specs::Boxes::left_column))]
    fn is_off_rail(&self, row: usize) -> bool
        ensures { result ≡ no_left_rail self.now row }
    {
        let c = self.at(row, self.left());
        !(c == b' ' || c == b'|' || c == b'+')
    }

    /// The first row in which the left rail's column has another character than a rail's.
    pub fn first_off_rail(&self) -> Option<usize>
        ensures none { IfNone result (InNoRow self.now (no_left_rail self.now)) }
        ensures inside { IfSome result (λ r. r < length self.now) }
        ensures some { IfSome result (λ r. IsTrue (no_left_rail self.now r)) }
        ensures first { IfSome result (λ r. (k : ℕ) → k < r → IsFalse (no_left_rail self.now k)) }
    {
        for row in 0..self.row_end() {
            if self.is_off_rail(row) {
                return Some(row);
            }
        }
        None
    }
}
