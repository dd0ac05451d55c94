//! The pins of a box's type.

use crate::block_names::{Top, between, has_sides, top_at, word_between};
use crate::rows::{row_at, sign_at};
use crate::rung::Part;
use std::alloc::{AllocError, Global};
use std_blocks::BlockType;
use words::{block_type, is_word_char};

/// The names of all pins, left ones and then right ones, in the order in which types have them.
const PINS: [&str; 16] = [
    "S1", "S", "CU", "CD", "R", "R1", "LD", "IN", "PV", "PT", "Q1", "Q", "QU", "QD", "CV", "ET",
];

/// Whether a type has a pin of this name on a side.
fn has_pin(block: BlockType, name: &str, left: bool) -> bool {
    block.pin(name).is_some_and(|pin| pin.left == left)
}

/// Writes the pins of a type on a side, parted by commas.
fn push_pins(
    text: &mut String,
    block: BlockType,
    names: &[&str],
    left: bool,
) -> Result<(), AllocError> {
    let mut is_first = true;
    for name in names {
        if has_pin(block, name, left) {
            text.push_str(if is_first { " " } else { ", " })?;
            text.push_str(name)?;
            is_first = false;
        }
    }
    Ok(())
}

/// The first top side in a row of which a corner stands in a column.
fn top_with(row: &str, column: usize) -> Option<Top> {
    for left in 0..row.len() {
        if let Some(top) = top_at(row, left)
            && (top.left == column || top.right == column)
        {
            return Some(top);
        }
    }
    None
}

/// The type of the box of which a row has both sides, one of them in a column, and that begins in a row above.
fn block_from(rows: &[&str], above: usize, row: usize, column: usize) -> Option<BlockType> {
    let top = top_with(row_at(rows, above), column)?;
    if has_sides(row_at(rows, row), top) {
        block_type(word_between(row_at(rows, above.saturating_add(1)), top)?)
    } else {
        None
    }
}

/// The type of the box of which a side stands at a place.
fn block_beside(rows: &[&str], part: Part, row: usize, column: usize) -> Option<BlockType> {
    for above in (part.first..row).rev() {
        if let Some(block) = block_from(rows, above, row, column) {
            return Some(block);
        }
    }
    None
}

/// Whether a name stands in the row above a box.
fn is_named(above: &str, top: Top, name: &[u8]) -> bool {
    between(above, top)
        .split(|sign| !is_word_char(*sign))
        .any(|word| word.eq_ignore_ascii_case(name))
}

/// The type of a row's box with this name.
fn block_in(rows: &[&str], row: usize, name: &[u8]) -> Option<BlockType> {
    let above = row_at(rows, row.saturating_sub(1));
    for left in 0..row_at(rows, row).len() {
        if let Some(top) = top_at(row_at(rows, row), left)
            && is_named(above, top, name)
        {
            return block_type(word_between(row_at(rows, row.saturating_add(1)), top)?);
        }
    }
    None
}

/// The type of the box with this name.
fn block_named(rows: &[&str], part: Part, name: &[u8]) -> Option<BlockType> {
    for row in part.first..part.end {
        if let Some(block) = block_in(rows, row, name) {
            return Some(block);
        }
    }
    None
}

/// The part before the dot of the first dotted word in a row.
pub fn before_a_dot(row: &str) -> Option<&[u8]> {
    for word in row.as_bytes().split(|sign| !is_word_char(*sign)) {
        if word.contains(&b'.') {
            return word.split(|sign| *sign == b'.').next();
        }
    }
    None
}

/// The type whose pins are asked for at a place: of the box there, or of that which is named before a dot.
fn block_at(rows: &[&str], part: Part, row: usize, column: usize) -> Option<BlockType> {
    let text = row_at(rows, row);
    if sign_at(text, column) == b'|' || sign_at(text, column) == b'>' {
        if let Some(block) = block_beside(rows, part, row, column) {
            return Some(block);
        }
    }
    let name = before_a_dot(text).or(before_a_dot(row_at(rows, row.saturating_sub(1))))?;
    block_named(rows, part, name)
}

fn name_of(block: BlockType) -> &'static str {
    match block {
        BlockType::SR => "SR",
        BlockType::RS => "RS",
        BlockType::CTU => "CTU",
        BlockType::CTD => "CTD",
        BlockType::CTUD => "CTUD",
        BlockType::TP => "TP",
        BlockType::TON => "TON",
        BlockType::TOF => "TOF",
    }
}

/// The pins of a type.
fn told_of_type(alloc: Global, block: BlockType) -> Result<String, AllocError> {
    let mut text = String::from_str(alloc, name_of(block))?;
    text.push_str(" has on its left")?;
    push_pins(&mut text, block, &PINS, true)?;
    text.push_str(", and on its right")?;
    push_pins(&mut text, block, &PINS, false)?;
    text.push_str(".\n")?;
    Ok(text)
}

/// The pins of the type of the box at a place. `None`: none stands there.
pub fn told_of_pins(
    alloc: Global,
    rows: &[&str],
    part: Part,
    row: usize,
    column: usize,
) -> Result<Option<String>, AllocError> {
    match block_at(rows, part, row, column) {
        Some(block) => Ok(Some(told_of_type(alloc, block)?)),
        None => Ok(None),
    }
}

/// The pins of the type of the first box with a side in a row. `None`: no box has one there.
pub fn told_of_pins_in(
    alloc: Global,
    rows: &[&str],
    part: Part,
    row: usize,
) -> Result<Option<String>, AllocError> {
    for column in 0..row_at(rows, row).len() {
        if let Some(block) = block_at(rows, part, row, column) {
            return Ok(Some(told_of_type(alloc, block)?));
        }
    }
    Ok(None)
}
