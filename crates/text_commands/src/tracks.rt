ghost use Rattle.std.specs.Prelude.{◌≡◌, ◌++◌, [], IfOk, OnOk, length, slice_get};
ghost use Rattle.std.specs.Option.{option_map_or};
ghost use Rattle.traces.specs.Times.{each};
ghost use Rattle.traces.specs.Wanted.{AreTexts};
ghost use Rattle.text_commands.specs.Chart.{values_at};
ghost use Rattle.text_commands.specs.Traced.{step_of, track_of, tracks_of};
ghost use Rattle.text_commands.specs.Steps.Testing.{slots_of};

use crate::chart::is_variable;
use declared_names::Declarations;
use power_flow::State;
use std::alloc::{AllocError, Global};
use std_blocks::Value;
use traces::{Times, TraceTexts, Track, Wanted, trace_texts};

/// The values of a variable after each scan.
fn values_at(alloc: Global, states: &[State], place: usize) -> Result<Vec<Value>, AllocError>
    ensures { IfOk result (λ values. values.items ≡ values_at place (slots_of states.now)) }
{
    let mut values = Vec::with_capacity(alloc, states.len())?;
    for state in states {
        if let Some(value) = state.get(place) {
            values.push(value)?;
        }
    }
    Ok(values)
}

/// Adds a declared name, if it is a variable's.
fn push_track(
    tracks: &mut Vec<Track>,
    alloc: Global,
    declarations: &Declarations,
    states: &[State],
    place: usize,
) -> Result<(), AllocError>
    ensures { OnOk result (tracks.new.items ≡ tracks.old.items
        ++ option_map_or (track_of (slots_of states.now) place) (slice_get declarations.now place) []) }
{
    match declarations.entry(place) {
        Some((name, declared)) if is_variable(declared) => {
            let name = String::from_str(alloc, name)?;
            let values = values_at(alloc, states, place)?;
            Ok(tracks.push(Track::new(None, name, values))?)
        }
        _ => Ok(()),
    }
}

/// The variables in order of declaration, each with its value after each scan.
fn tracks_of(
    alloc: Global,
    declarations: &Declarations,
    states: &[State],
) -> Result<Vec<Track>, AllocError>
    ensures { IfOk result (λ tracks. tracks.items ≡ tracks_of declarations.now (slots_of states.now)) }
{
    let mut tracks = Vec::new(alloc);
    for place in 0..declarations.len() {
        push_track(&mut tracks, alloc, declarations, states, place)?;
    }
    Ok(tracks)
}

/// How many scans there are, as a number of 32 bits. More states don't fit into memory.
fn moments_in(states: &[State]) -> Result<u32, AllocError>
    ensures { IfOk result (λ moments. moments ≡ length states.now) }
{
    match u32::try_from(states.len()) {
        Ok(moments) => Ok(moments),
        Err(_) => Err(AllocError),
    }
}

/// How long a scan is shown, in ms.
fn step_of(dt: u32) -> u32
    ensures { result ≡ step_of dt }
{
    if dt == 0 { 1 } else { dt }
}

/// The texts that are wanted of the variables, after each scan.
pub fn state_texts(
    alloc: Global,
    declarations: &Declarations,
    states: &[State],
    dt: u32,
    wanted: Wanted<'_>,
) -> Result<TraceTexts, AllocError>
    ensures { IfOk result (AreTexts wanted.entry (each (step_of dt)) (length states.now)
        (tracks_of declarations.now (slots_of states.now))) }
{
    let moments = moments_in(states)?;
    let tracks = tracks_of(alloc, declarations, states)?;
    trace_texts(alloc, wanted, Times::Each(step_of(dt)), moments, &tracks)
}
