//! The faults of boxes that are whole: boxes that share a place, and stray operands.

ghost use Rattle.std.specs.Prelude.{◌≡◌, ◌&&◌, nat_lt, slice_get, is_some, is_none, Some, IfSome};
ghost use Rattle.std.specs.List.{list_any};
ghost use Rattle.ladder_rows.specs.Boxes.{outlines};
ghost use Rattle.ladder_rows.specs.BoxTests.{share_place, some_takes_word};
ghost use Rattle.ladder_rows.specs.Steps.RowBoxes.{holds_at, numbers_on};
ghost use Rattle.ladder_text.specs.Places.{layout_of};
ghost use Rattle.ladder_text.specs.Faults.{boxes_apart, is_stray_operand, has_stray_pin, has_stray_operand};
ghost use Rattle.ladder_text.specs.FirstFault.{shares_before, IsSharedAt, IsStrayPinAt, IsStrayBoxAt, IsStrayOperandAt};
ghost use Rattle.ladder_text.specs.Steps.Search.{IsFirstOf, IsFirstShared};

use crate::earlier::or_earlier;
use crate::places::marked_grid::MarkedGrid;
use drawings::{DrawnPin, Place, Side};
use ladder_rows::{Outline, boxes_are_whole};
use words::is_operand;

fn shares_place_at(boxes: &[Outline], outline: &Outline, number: usize) -> bool
    ensures { result ≡ holds_at boxes.now (share_place outline.now) number }
{
    match boxes.get(number) {
        Some(other) => outline.shares_place(other),
        None => false,
    }
}

/// Whether one of some boxes stands before a number, and shares a place with the box.
fn any_shares_place(boxes: &[Outline], numbers: &[usize], before: usize, outline: &Outline) -> bool
    ensures { result ≡ list_any (λ i. nat_lt i before && holds_at boxes.now (share_place outline.now) i) numbers.now }
{
    numbers.iter().any(|number| *number < before && shares_place_at(boxes, outline, *number))
}

impl MarkedGrid {
    /// The numbers of the boxes that have a row.
    fn boxes_on(&self, row: usize) -> &[usize]
        ensures { result.now ≡ numbers_on (outlines self.now) row }
    {
        self.boxes.on_row(row)
    }

    /// Whether a box shares a place with one of those before it.
    fn shares_before(&self, number: usize, outline: &Outline) -> bool
        requires { slice_get (outlines self.now) number ≡ Some outline.now }
        ensures { result ≡ shares_before (outlines self.now) number outline.now }
    {
        boxes_are_whole();
        any_shares_place(self.boxes(), self.boxes_on(outline.top), number, outline)
    }

    /// The corner of the first box that shares a place with one before it.
    pub fn first_shared_box(&self) -> Option<Place>
        ensures none { is_none result ≡ boxes_apart (layout_of self.now) }
        ensures some { IfSome result (λ p. IsFirstShared (outlines self.now) p) }
        ensures first { IsFirstOf (IsSharedAt (outlines self.now)) result }
    {
        boxes_are_whole();
        for (number, outline) in self.boxes().iter().enumerate() {
            if self.shares_before(number, outline) {
                return Some(Place {
                    row: outline.top,
                    column: outline.left,
                });
            }
        }
        None
    }

    /// Whether the operand of a pin on a side begins at a place.
    fn takes_word(&self, side: Side, row: usize, column: usize) -> bool
        ensures { result ≡ some_takes_word (outlines self.now) side row column }
    {
        self.boxes.any_takes_word(side, row, column)
    }

    /// The place of the operand of a pin, where it isn't as it should be or belongs to another pin too.
    fn stray_operand(&self, pin: &DrawnPin) -> Option<Place>
        ensures stray { is_some result ≡ is_stray_operand (outlines self.now) pin.now.row pin.now.operand }
        ensures first { IsFirstOf (IsStrayPinAt (outlines self.now) pin.now) result }
    {
        match &pin.operand {
            None => None,
            Some(operand) => {
                let column = operand.column;
                let is_stray = !is_operand(operand.text.as_str().as_bytes())
                    || (self.takes_word(Side::Left, pin.row, column)
                        && self.takes_word(Side::Right, pin.row, column));
                let place = Place {
                    row: pin.row,
                    column,
                };
                if is_stray { Some(place) } else { None }
            }
        }
    }

    /// The first place of a stray operand of a box.
    fn first_stray_pin(&self, outline: &Outline) -> Option<Place>
        ensures stray { is_some result ≡ has_stray_pin (outlines self.now) outline.now }
        ensures first { IsFirstOf (IsStrayBoxAt (outlines self.now) outline.now) result }
    {
        let mut first = None;
        for pin in outline.pins.as_slice() {
            if let Some(place) = self.stray_operand(pin) {
                first = Some(or_earlier(place, first));
            }
        }
        first
    }

    /// The first place of a stray operand.
    #[tactic(auto, unfolding(crate::specs::Places::layout_of, crate::specs::Faults::has_stray_operand))]
    pub fn first_stray_operand(&self) -> Option<Place>
        ensures stray { is_some result ≡ has_stray_operand (layout_of self.now) }
        ensures first { IsFirstOf (IsStrayOperandAt (outlines self.now)) result }
    {
        let mut first = None;
        for outline in self.boxes() {
            if let Some(place) = self.first_stray_pin(outline) {
                first = Some(or_earlier(place, first));
            }
        }
        first
    }
}
