//! A box as it is drawn, and what is asked of it.

ghost use Rattle.std.specs.Prelude.{◌≡◌, ◌==◌, ◌<◌, ◌≤◌, ◌^◌, ℕ, length, slice_index_or};
ghost use Rattle.drawings.specs.declared.drawn_box.DrawnPin.{DrawnPin};
ghost use Rattle.std.specs.List.{list_any, filter};
ghost use Rattle.std.specs.List.Sorted.{IsNonDecreasingBy};
ghost use Rattle.drawings.specs.declared.drawn_box.Side.TheVariants as side;
ghost use Rattle.ladder_rows.specs.Boxes.{covers, meets_row};
ghost use Rattle.ladder_rows.specs.BoxTests.{pin_reaches, box_reaches, right_pin_at, pin_on, top_span, share_place, takes_word, blind_right_of, blind_left_of};
ghost use Rattle.ladder_rows.specs.Steps.RowBoxes.{box_test, row_of_pin, AreOnOrBelow, AreBelow};

use crate::boxes::box_test::BoxTest;
use crate::span::Span;
use drawings::{DrawnPin, Pins, Side};
use std_blocks::BlockType;

/// A box as it is drawn, its name aside.
#[derive(Drop)]
pub struct Outline {
    pub top: usize,
    pub left: usize,
    pub bottom: usize,
    pub right: u32,
    pub block: BlockType,
    pub pins: Pins,
}

/// How many pins stand above a row, where pins stand row by row.
fn count_above(pins: &[DrawnPin], row: usize) -> usize
    requires { IsNonDecreasingBy row_of_pin pins.now }
    ensures within { result ≤ length pins.now }
    ensures above { (k : ℕ) (d : DrawnPin) → k < result → (slice_index_or pins.now k d).row < row }
    ensures behind { AreOnOrBelow pins.now result row }
{
    pins.partition_point(|pin| pin.row < row)
}

/// How many pins stand above a row or on it, where pins stand row by row.
fn count_to(pins: &[DrawnPin], row: usize) -> usize
    requires { IsNonDecreasingBy row_of_pin pins.now }
    ensures within { result ≤ length pins.now }
    ensures above { (k : ℕ) (d : DrawnPin) → k < result → (slice_index_or pins.now k d).row ≤ row }
    ensures behind { AreBelow pins.now result row }
{
    pins.partition_point(|pin| pin.row <= row)
}

/// The pins of a row, where pins stand row by row.
fn pins_on(pins: &[DrawnPin], row: usize) -> &[DrawnPin]
    requires { IsNonDecreasingBy row_of_pin pins.now }
    ensures { result.now ≡ filter (λ q. q.row == row) pins.now }
{
    let rest = &pins[count_above(pins, row)..];
    &rest[..count_to(rest, row)]
}

fn pin_on(side: Side, row: usize, pin: &DrawnPin) -> bool
    ensures { result ≡ pin_on side row pin.now }
{
    pin.row == row && pin.side == side
}

/// Whether the operand of a pin on a side begins at a place.
fn takes_word(pin: &DrawnPin, side: Side, row: usize, column: usize) -> bool
    ensures { result ≡ takes_word side row column pin.now }
{
    match &pin.operand {
        None => false,
        Some(operand) => pin_on(side, row, pin) && operand.column == column,
    }
}

fn any_on(pins: &[DrawnPin], side: Side, row: usize) -> bool
    ensures { result ≡ list_any (pin_on side row) pins.now }
{
    pins.iter().any(|pin| pin_on(side, row, pin))
}

fn any_takes_word(pins: &[DrawnPin], side: Side, row: usize, column: usize) -> bool
    ensures { result ≡ list_any (takes_word side row column) pins.now }
{
    pins.iter().any(|pin| takes_word(pin, side, row, column))
}

impl Outline {
    /// Whether a row is one of the box's.
    fn meets_row(&self, row: usize) -> bool
        ensures { result ≡ meets_row row self.now }
    {
        self.top <= row && row <= self.bottom
    }

    fn covers(&self, row: usize, column: usize) -> bool
        ensures { result ≡ covers row column self.now }
    {
        self.top <= row
            && row <= self.bottom
            && self.left <= column
            && column <= self.right as usize
    }

    /// Whether two boxes have a place in common.
    pub fn shares_place(&self, other: &Outline) -> bool
        ensures { result ≡ share_place self.now other.now }
    {
        self.top <= other.bottom
            && other.top <= self.bottom
            && self.left <= other.right as usize
            && other.left <= self.right as usize
    }

    /// The columns of the top side.
    pub(crate) fn top_span(&self) -> Span
        ensures { result ≡ top_span self.now }
    {
        Span {
            first: self.left,
            end: self.right as usize + 1,
        }
    }

    /// Whether the operand of a pin, or a dash on its way there, is at a place.
    fn pin_reaches(&self, row: usize, column: usize, pin: &DrawnPin) -> bool
        ensures { result ≡ pin_reaches self.now row column pin.now }
    {
        match &pin.operand {
            None => false,
            Some(operand) => {
                let len = operand.text.as_str().len();
                pin.row == row
                    && match pin.side {
                        Side::Left => operand.column <= column && column < self.left,
                        Side::Right => {
                            (self.right as usize) < column
                                && (column < operand.column || column - operand.column < len)
                        }
                    }
            }
        }
    }

    fn any_reaches(&self, row: usize, column: usize, pins: &[DrawnPin]) -> bool
        ensures { result ≡ list_any (pin_reaches self.now row column) pins.now }
    {
        pins.iter().any(|pin| self.pin_reaches(row, column, pin))
    }

    fn any_pin_reaches(&self, row: usize, column: usize) -> bool
        requires { IsNonDecreasingBy row_of_pin self.now.pins }
        ensures { result ≡ list_any (pin_reaches self.now row column) self.now.pins }
    {
        self.any_reaches(row, column, pins_on(self.pins.as_slice(), row))
    }

    fn reaches(&self, row: usize, column: usize) -> bool
        requires { IsNonDecreasingBy row_of_pin self.now.pins }
        ensures { result ≡ box_reaches row column self.now }
    {
        self.meets_row(row) && self.any_pin_reaches(row, column)
    }

    fn has_pin(&self, side: Side, row: usize) -> bool
        requires { IsNonDecreasingBy row_of_pin self.now.pins }
        ensures { result ≡ list_any (pin_on side row) self.now.pins }
    {
        any_on(pins_on(self.pins.as_slice(), row), side, row)
    }

    fn right_pin_at(&self, row: usize, column: usize) -> bool
        requires { IsNonDecreasingBy row_of_pin self.now.pins }
        ensures { result ≡ right_pin_at row column self.now }
    {
        self.meets_row(row) && column == self.right as usize && self.has_pin(Side::Right, row)
    }

    fn blind_right_of(&self, row: usize, column: usize) -> bool
        requires column { column < 2 ^ 63 }
        requires pins { IsNonDecreasingBy row_of_pin self.now.pins }
        ensures { result ≡ blind_right_of row column self.now }
    {
        self.covers(row, column + 1) && column + 1 == self.left && !self.has_pin(Side::Left, row)
    }

    fn blind_left_of(&self, row: usize, column: usize) -> bool
        requires { IsNonDecreasingBy row_of_pin self.now.pins }
        ensures { result ≡ blind_left_of row column self.now }
    {
        self.covers(row, column.saturating_sub(1))
            && column > 0
            && column - 1 == self.right as usize
            && !self.has_pin(Side::Right, row)
    }

    /// Whether the box passes a test at a place.
    pub(crate) fn test(&self, test: BoxTest, row: usize, column: usize) -> bool
        requires column { column < 2 ^ 63 }
        requires pins { IsNonDecreasingBy row_of_pin self.now.pins }
        ensures { result ≡ box_test test row column self.now }
    {
        match test {
            BoxTest::Covers => self.covers(row, column),
            BoxTest::Reaches => self.reaches(row, column),
            BoxTest::RightPin => self.right_pin_at(row, column),
            BoxTest::BlindLeft => self.blind_left_of(row, column),
            BoxTest::BlindRight => self.blind_right_of(row, column),
        }
    }

    /// Whether the operand of a pin on a side begins at a place.
    pub(crate) fn takes_word(&self, side: Side, row: usize, column: usize) -> bool
        requires { IsNonDecreasingBy row_of_pin self.now.pins }
        ensures { result ≡ list_any (takes_word side row column) self.now.pins }
    {
        any_takes_word(pins_on(self.pins.as_slice(), row), side, row, column)
    }
}
