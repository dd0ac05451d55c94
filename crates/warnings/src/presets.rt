//! Timers that are done between two scans.

ghost use Rattle.std.specs.Prelude.{◌≡◌, ◌++◌, OnOk, IfOk, map};
ghost use Rattle.std.specs.List.{flat_map};
ghost use Rattle.warnings.specs.Presets.{is_timer, is_input_named, is_between_scans, ends_between_scans, preset_at, preset_at_pin, presets_of, presets};

use crate::warning::{Warning, WarningKind};
use drawings::{DrawnPin, Operand, Place, Side};
use network::Element;
use std::alloc::{AllocError, Global};
use std_blocks::BlockType;
use words::small_duration;

fn is_timer(block: BlockType) -> bool
    ensures { result ≡ is_timer block }
{
    match block {
        BlockType::TP | BlockType::TON | BlockType::TOF => true,
        BlockType::SR | BlockType::RS | BlockType::CTU | BlockType::CTD | BlockType::CTUD => false,
    }
}

/// Whether a pin is an input of this name.
fn is_input_named(name: &str, pin: &DrawnPin) -> bool
    ensures { result ≡ is_input_named name.now pin.now }
{
    match pin.side {
        Side::Left => pin.name.as_str().eq_ignore_ascii_case(name),
        Side::Right => false,
    }
}

/// Whether no scan comes this long after another, where each comes `dt` milliseconds after the one before.
fn is_between_scans(dt: u32, time: u32) -> bool
    ensures { result ≡ is_between_scans dt time }
{
    dt != 0 && time % dt != 0
}

/// Whether a word is a duration that ends between two scans.
fn ends_between_scans(dt: u32, word: &[u8]) -> bool
    ensures { result ≡ ends_between_scans dt word.now }
{
    match small_duration(word) {
        Some(time) => is_between_scans(dt, time),
        None => false,
    }
}

/// Warns of what stands at a pin in this row, if it is a duration that ends between two scans.
fn push_preset(
    warnings: &mut Vec<Warning>,
    dt: u32,
    first_line: u64,
    row: usize,
    operand: &Operand,
) -> Result<(), AllocError>
    ensures { OnOk result (warnings.new.items ≡ warnings.old.items ++ preset_at dt first_line row operand.now) }
{
    if ends_between_scans(dt, operand.text.as_bytes()) {
        let place = Place {
            row,
            column: operand.column,
        };
        warnings.push(Warning::at(WarningKind::PresetBetweenScans, first_line, place))?;
    }
    Ok(())
}

fn push_preset_at_pin(
    warnings: &mut Vec<Warning>,
    dt: u32,
    first_line: u64,
    pin: &DrawnPin,
) -> Result<(), AllocError>
    ensures { OnOk result (warnings.new.items ≡ warnings.old.items ++ preset_at_pin dt first_line pin.now) }
{
    if !is_input_named("PT", pin) {
        return Ok(());
    }
    match &pin.operand {
        None => Ok(()),
        Some(operand) => push_preset(warnings, dt, first_line, pin.row, operand),
    }
}

fn push_presets_at_pins(
    warnings: &mut Vec<Warning>,
    dt: u32,
    first_line: u64,
    pins: &[DrawnPin],
) -> Result<(), AllocError>
    ensures { OnOk result (warnings.new.items ≡ warnings.old.items ++ flat_map (preset_at_pin dt first_line) pins.now) }
{
    for pin in pins {
        push_preset_at_pin(warnings, dt, first_line, pin)?;
    }
    Ok(())
}

/// Warns of an element that is a timer done between two scans.
fn push_presets_of(
    warnings: &mut Vec<Warning>,
    dt: u32,
    first_line: u64,
    element: &Element,
) -> Result<(), AllocError>
    ensures { OnOk result (warnings.new.items ≡ warnings.old.items ++ presets_of dt first_line element.now) }
{
    let Element::Box(boxed) = element else {
        return Ok(());
    };
    let drawn = boxed.drawn();
    if is_timer(drawn.block) {
        push_presets_at_pins(warnings, dt, first_line, drawn.pins.as_slice())?;
    }
    Ok(())
}

/// The durations at PT of timers that end between two scans, each of which comes `dt` milliseconds after the one before; none
/// where that is 0.
pub fn presets(
    alloc: Global,
    dt: u32,
    first_line: u64,
    elements: &[&Element],
) -> Result<Vec<Warning>, AllocError>
    ensures { IfOk result (λ found. found.items ≡ presets dt first_line (map (λ e. e.now) elements.now)) }
{
    let mut found = Vec::new(alloc);
    for element in elements {
        push_presets_of(&mut found, dt, first_line, element)?;
    }
    Ok(found)
}
