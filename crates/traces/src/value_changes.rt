ghost use Rattle.std.specs.Prelude.{◌≡◌, ◌==◌, ◌++◌, [], if◌then◌else◌, OnOk, IfOk, length, string_bytes};
ghost use Rattle.std.specs.Option.{option_map};
ghost use Rattle.text_lines.specs.Growing.{GrowsBy};
ghost use Rattle.traces.specs.Times.{time_of};
ghost use Rattle.traces.specs.Tracks.{is_same, is_same_scope, value_at, value_before};
ghost use Rattle.traces.specs.ValueChanges.{width_of, variable_line, scope_line, enter_lines, leave_lines, scope_lines, scope_before, declared_lines, declared_lines_of, timescale_line, end_of_definitions, head_lines, begin_of_values, end_of_values, value_line, change_line, change_of, change_lines, time_line, timed, told_behind, told_at, first_lines, moment_lines, dump_of};

use crate::times::Times;
use crate::track::{Scope, Track};
use std::alloc::{AllocError, Global};
use std::fmt::Write;
use std_blocks::Value;

/// How many bits a value has.
fn width_of(value: Option<Value>) -> u32
    ensures { result ≡ width_of value }
{
    match value {
        None | Some(Value::Bool(_)) => 1,
        Some(Value::Int(_)) => 16,
        Some(Value::Time(_)) => 32,
    }
}

fn push_variable(text: &mut String, number: usize, track: &Track) -> Result<(), AllocError>
    ensures { OnOk result (GrowsBy text.old text.new (variable_line number track.now)) }
{
    let width = width_of(track.values().get(0).copied());
    write!(text, "$var wire {width} v{number} ")?;
    text.push_str(track.name())?;
    text.push_str(" $end\n")
}

fn push_scope_line(text: &mut String, name: &str) -> Result<(), AllocError>
    ensures { OnOk result (GrowsBy text.old text.new (scope_line name.now)) }
{
    write!(text, "$scope module {name} $end\n")
}

fn push_enter(text: &mut String, scope: Option<&Scope>) -> Result<(), AllocError>
    ensures { OnOk result (GrowsBy text.old text.new (enter_lines (option_map (λ s. s.now) scope.entry))) }
{
    let Some(scope) = scope else {
        return Ok(());
    };
    push_scope_line(text, scope.resource())?;
    push_scope_line(text, scope.program())
}

fn push_leave(text: &mut String, scope: Option<&Scope>) -> Result<(), AllocError>
    ensures { OnOk result (GrowsBy text.old text.new (leave_lines (option_map (λ s. s.now) scope.entry))) }
{
    match scope {
        Some(_) => text.push_str("$upscope $end\n$upscope $end\n"),
        None => Ok(()),
    }
}

/// Whether two variables stand in one program.
fn is_same_scope(scope: Option<&Scope>, other: Option<&Scope>) -> bool
    ensures { result ≡ is_same_scope (option_map (λ s. s.now) scope.entry) (option_map (λ s. s.now) other.entry) }
{
    match (scope, other) {
        (None, None) => true,
        (Some(scope), Some(other)) => {
            scope.resource() == other.resource() && scope.program() == other.program()
        }
        _ => false,
    }
}

/// Leaves a program and enters another one.
fn push_scope(
    text: &mut String,
    before: Option<&Scope>,
    scope: Option<&Scope>,
) -> Result<(), AllocError>
    ensures { OnOk result (GrowsBy text.old text.new
        (scope_lines (option_map (λ s. s.now) before.entry) (option_map (λ s. s.now) scope.entry))) }
{
    if is_same_scope(before, scope) {
        return Ok(());
    }
    push_leave(text, before)?;
    push_enter(text, scope)
}

/// Where the variable before the one with this number stands.
fn scope_before(tracks: &[Track], number: usize) -> Option<&Scope>
    ensures { option_map (λ s. s.now) result ≡ scope_before tracks.now number }
{
    if number == 0 {
        return None;
    }
    match tracks.get(number - 1) {
        Some(track) => track.scope(),
        None => None,
    }
}

/// Declares a variable in its program, behind one of another.
fn push_track(
    text: &mut String,
    before: Option<&Scope>,
    number: usize,
    track: &Track,
) -> Result<(), AllocError>
    ensures { OnOk result (GrowsBy text.old text.new
        (scope_lines (option_map (λ s. s.now) before.entry) track.now.scope ++ variable_line number track.now)) }
{
    push_scope(text, before, track.scope())?;
    push_variable(text, number, track)?;
    Ok(())
}

fn push_declared(text: &mut String, tracks: &[Track], number: usize) -> Result<(), AllocError>
    ensures { OnOk result (GrowsBy text.old text.new (declared_lines_of tracks.now number)) }
{
    match tracks.get(number) {
        Some(track) => push_track(text, scope_before(tracks, number), number, track),
        None => Ok(()),
    }
}

/// Declares all variables.
fn push_declarations(text: &mut String, tracks: &[Track]) -> Result<(), AllocError>
    ensures { OnOk result (GrowsBy text.old text.new (declared_lines tracks.now (length tracks.now))) }
{
    for number in 0..tracks.len() {
        push_declared(text, tracks, number)?;
    }
    Ok(())
}

/// Leaves the last program.
fn push_last(text: &mut String, tracks: &[Track]) -> Result<(), AllocError>
    ensures { OnOk result (GrowsBy text.old text.new (leave_lines (scope_before tracks.now (length tracks.now)))) }
{
    push_leave(text, scope_before(tracks, tracks.len()))?;
    Ok(())
}

fn push_timescale(text: &mut String) -> Result<(), AllocError>
    ensures { OnOk result (GrowsBy text.old text.new timescale_line) }
{
    write!(text, "$timescale 1 ms $end\n")
}

fn push_end_of_definitions(text: &mut String) -> Result<(), AllocError>
    ensures { OnOk result (GrowsBy text.old text.new end_of_definitions) }
{
    write!(text, "$enddefinitions $end\n")
}

/// Writes all that stands before the first moment.
fn push_head(text: &mut String, tracks: &[Track]) -> Result<(), AllocError>
    ensures { OnOk result (GrowsBy text.old text.new (head_lines tracks.now)) }
{
    push_timescale(text)?;
    push_declarations(text, tracks)?;
    push_last(text, tracks)?;
    push_end_of_definitions(text)?;
    Ok(())
}

fn push_value_line(text: &mut String, number: usize, value: Value) -> Result<(), AllocError>
    ensures { OnOk result (GrowsBy text.old text.new (value_line number value)) }
{
    match value {
        Value::Bool(true) => write!(text, "1v{number}\n"),
        Value::Bool(false) => write!(text, "0v{number}\n"),
        Value::Int(value) => {
            let bits = value.cast_unsigned();
            write!(text, "b{bits:b} v{number}\n")
        }
        Value::Time(time) => write!(text, "b{time:b} v{number}\n"),
    }
}

/// Whether two values of one kind are the same.
pub(crate) fn is_same(before: Value, value: Value) -> bool
    ensures { result ≡ is_same before value }
{
    match (before, value) {
        (Value::Bool(true), Value::Bool(other)) => other,
        (Value::Bool(false), Value::Bool(other)) => !other,
        (Value::Int(number), Value::Int(other)) => number == other,
        (Value::Time(time), Value::Time(other)) => time == other,
        _ => false,
    }
}

/// Writes a value where it is another one than before.
fn push_change_line(
    text: &mut String,
    number: usize,
    before: Option<Value>,
    value: Option<Value>,
) -> Result<(), AllocError>
    ensures { OnOk result (GrowsBy text.old text.new (change_line number before value)) }
{
    match (before, value) {
        (_, None) => Ok(()),
        (None, Some(value)) => push_value_line(text, number, value),
        (Some(before), Some(value)) if is_same(before, value) => Ok(()),
        (Some(_), Some(value)) => push_value_line(text, number, value),
    }
}

/// The value at the moment before this one.
fn value_before(track: &Track, moment: usize) -> Option<Value>
    ensures { result ≡ value_before track.now moment }
{
    if moment == 0 {
        return None;
    }
    track.values().get(moment - 1).copied()
}

fn push_change(
    text: &mut String,
    moment: usize,
    tracks: &[Track],
    number: usize,
) -> Result<(), AllocError>
    ensures { OnOk result (GrowsBy text.old text.new (change_of moment tracks.now number)) }
{
    let Some(track) = tracks.get(number) else {
        return Ok(());
    };
    let value = track.values().get(moment).copied();
    push_change_line(text, number, value_before(track, moment), value)
}

/// Writes what changes at a moment.
fn push_changes(text: &mut String, moment: usize, tracks: &[Track]) -> Result<(), AllocError>
    ensures { OnOk result (GrowsBy text.old text.new (change_lines moment tracks.now (length tracks.now))) }
{
    for number in 0..tracks.len() {
        push_change(text, moment, tracks, number)?;
    }
    Ok(())
}

fn push_time(text: &mut String, time: u64) -> Result<(), AllocError>
    ensures { OnOk result (GrowsBy text.old text.new (time_line time)) }
{
    write!(text, "#{time}\n")
}

/// Writes a time, unless it was told last.
fn push_time_once(text: &mut String, told: u64, time: u64) -> Result<(), AllocError>
    ensures { OnOk result (GrowsBy text.old text.new (if time == told then [] else time_line time)) }
{
    if time == told {
        return Ok(());
    }
    push_time(text, time)
}

/// Writes what changes at a time, if anything does; the time that was told last.
fn push_timed(text: &mut String, told: u64, time: u64, changes: &str) -> Result<u64, AllocError>
    ensures text { OnOk result (GrowsBy text.old text.new (timed told time changes.now)) }
    ensures told { IfOk result (λ last. last ≡ told_behind told time changes.now) }
{
    if changes.is_empty() {
        return Ok(told);
    }
    push_time_once(text, told, time)?;
    text.push_str(changes)?;
    Ok(time)
}

fn push_begin_of_values(text: &mut String) -> Result<(), AllocError>
    ensures { OnOk result (GrowsBy text.old text.new begin_of_values) }
{
    write!(text, "#0\n$dumpvars\n")
}

fn push_end_of_values(text: &mut String) -> Result<(), AllocError>
    ensures { OnOk result (GrowsBy text.old text.new end_of_values) }
{
    write!(text, "$end\n")
}

/// Writes all variables at the first moment.
fn push_first(text: &mut String, tracks: &[Track]) -> Result<(), AllocError>
    ensures { OnOk result (GrowsBy text.old text.new (first_lines tracks.now)) }
{
    push_begin_of_values(text)?;
    push_changes(text, 0, tracks)?;
    push_end_of_values(text)?;
    Ok(())
}

/// Writes what a moment shows that is of this time; the time that was told last.
fn push_moment(
    text: &mut String,
    alloc: Global,
    told: u64,
    time: u64,
    tracks: &[Track],
    moment: u32,
) -> Result<u64, AllocError>
    ensures text { OnOk result (GrowsBy text.old text.new (moment_lines told time tracks.now moment)) }
    ensures told { IfOk result (λ last. last ≡ told_at told time tracks.now moment) }
{
    if moment == 0 {
        push_first(text, tracks)?;
        return Ok(0);
    }
    let mut changes = String::new(alloc);
    push_changes(&mut changes, moment as usize, tracks)?;
    push_timed(text, told, time, changes.as_str())
}

/// The value change dump of variables over so many moments that begin at these times.
pub fn change_dump(
    alloc: Global,
    times: Times<'_>,
    moments: u32,
    tracks: &[Track],
) -> Result<String, AllocError>
    ensures { IfOk result (λ text. string_bytes text ≡ dump_of (time_of times.entry) moments tracks.now) }
{
    let mut text = String::new(alloc);
    push_head(&mut text, tracks)?;
    let mut told = 0;
    for moment in 0..moments {
        told = push_moment(
            &mut text,
            alloc,
            told,
            times.time_of(moment),
            tracks,
            moment,
        )?;
    }
    push_time(&mut text, times.time_of(moments))?;
    Ok(text)
}
