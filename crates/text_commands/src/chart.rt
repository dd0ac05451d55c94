ghost use Rattle.std.specs.Prelude.{◌≡◌, OnOk, IfOk, None, [], slice_get, string_bytes};
ghost use Rattle.std.specs.List.{flat_map};
ghost use Rattle.std.specs.Option.{option_map_or, option_to_list};
ghost use Rattle.text_lines.specs.Growing.{GrowsBy};
ghost use Rattle.text_commands.specs.Lines.{line_of};
ghost use Rattle.text_commands.specs.Chart.{change_text, chart_line, chart_of, is_same_value, is_variable, name_width, padded, sign_of, signs_of, values_at, width_of};
ghost use Rattle.text_commands.specs.Steps.Testing.{last_of, slots_of};

use crate::line::state_line;
use declared_names::{Declarations, Declared};
use power_flow::State;
use std::alloc::{AllocError, Global};
use std_blocks::Value;
use text_lines::push_value;

/// Whether what is declared is a variable, and no instance of a block.
pub(crate) fn is_variable(declared: Declared) -> bool
    ensures { result ≡ is_variable declared }
{
    match declared {
        Declared::Input(_) | Declared::Output(_) | Declared::Local(_) => true,
        Declared::Instance(_) => false,
    }
}

/// How long the name at a place is, if it is a variable's, else 0.
fn width_at(declarations: &Declarations, place: usize) -> usize
    ensures { result ≡ option_map_or width_of (slice_get declarations.now place) 0 }
{
    match declarations.entry(place) {
        Some((name, declared)) if is_variable(declared) => name.len(),
        _ => 0,
    }
}

/// The greatest length of a variable's name.
fn name_width(declarations: &Declarations) -> usize
    ensures { result ≡ name_width declarations.now }
{
    let mut most = 0;
    for place in 0..declarations.len() {
        most = most.max(width_at(declarations, place));
    }
    most
}

/// Writes a name, with blanks up to the width and one more.
fn push_name(text: &mut String, width: usize, name: &str) -> Result<(), AllocError>
    ensures { OnOk result (GrowsBy text.old text.new (padded width name.now)) }
{
    text.push_str(name)?;
    for _blank in 0..width.saturating_sub(name.len()) {
        text.push_str(" ")?;
    }
    text.push_str(" ")
}

fn is_same_value(before: Value, value: Value) -> bool
    ensures { result ≡ is_same_value before value }
{
    match (before, value) {
        (Value::Int(number), Value::Int(other)) => number == other,
        (Value::Time(time), Value::Time(other)) => time == other,
        _ => false,
    }
}

/// Writes a number or time where it is another one than before.
fn push_change(line: &mut String, before: Option<Value>, value: Value) -> Result<(), AllocError>
    ensures { OnOk result (GrowsBy line.old line.new (change_text before value)) }
{
    let Some(before) = before else {
        return push_value(line, value);
    };
    if is_same_value(before, value) {
        return Ok(());
    }
    line.push_str(" ")?;
    push_value(line, value)
}

/// Writes what a line shows of one scan.
fn push_sign(line: &mut String, before: Option<Value>, value: Value) -> Result<(), AllocError>
    ensures { OnOk result (GrowsBy line.old line.new (sign_of before value)) }
{
    match value {
        Value::Bool(true) => line.push_str("#"),
        Value::Bool(false) => line.push_str("_"),
        Value::Int(_) | Value::Time(_) => push_change(line, before, value),
    }
}

/// Writes what a line shows of the value after one scan, if there is one; the last value.
fn push_scan(
    line: &mut String,
    before: Option<Value>,
    value: Option<Value>,
) -> Result<Option<Value>, AllocError>
    ensures text { OnOk result (GrowsBy line.old line.new (signs_of before (option_to_list value))) }
    ensures last { IfOk result (λ last. last ≡ last_of before (option_to_list value)) }
{
    match value {
        Some(value) => {
            push_sign(line, before, value)?;
            Ok(Some(value))
        }
        None => Ok(before),
    }
}

/// Writes what a line shows of all scans.
fn push_signs(line: &mut String, states: &[State], place: usize) -> Result<(), AllocError>
    ensures { OnOk result (GrowsBy line.old line.new (signs_of None (values_at place (slots_of states.now)))) }
{
    let mut before = None;
    for state in states {
        before = push_scan(line, before, state.get(place))?;
    }
    Ok(())
}

/// Writes the line of a declared name, if it is a variable's.
fn push_line(
    text: &mut String,
    declarations: &Declarations,
    states: &[State],
    width: usize,
    place: usize,
) -> Result<(), AllocError>
    ensures { OnOk result (GrowsBy text.old text.new
        (option_map_or (chart_line width (slots_of states.now) place) (slice_get declarations.now place) [])) }
{
    match declarations.entry(place) {
        Some((name, declared)) if is_variable(declared) => {
            push_name(text, width, name)?;
            push_signs(text, states, place)?;
            text.push_str("\n")
        }
        _ => Ok(()),
    }
}

/// The chart of the states after each scan: a line for each variable, in order of declaration.
pub fn chart_text(
    alloc: Global,
    declarations: &Declarations,
    states: &[State],
) -> Result<String, AllocError>
    ensures { IfOk result (λ text. string_bytes text ≡ chart_of declarations.now (slots_of states.now)) }
{
    let width = name_width(declarations);
    let mut text = String::new(alloc);
    for place in 0..declarations.len() {
        push_line(&mut text, declarations, states, width, place)?;
    }
    Ok(text)
}

/// A line for each of the states.
pub fn rows_text(
    alloc: Global,
    declarations: &Declarations,
    states: &[State],
) -> Result<String, AllocError>
    ensures { IfOk result
        (λ text. string_bytes text ≡ flat_map (line_of declarations.now) (slots_of states.now)) }
{
    let mut text = String::new(alloc);
    for state in states {
        let line = state_line(alloc, declarations, state)?;
        text.push_str(line.as_str())?;
    }
    Ok(text)
}
