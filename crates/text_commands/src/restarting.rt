//! Restarts of a ladder.

ghost use Rattle.std.specs.Prelude.{◌≡◌, ◌++◌, List, IfOk, OnOk, false, true, length, replicate, slice_set};
ghost use Rattle.declared_names.specs.declared.declarations.Declaration.{Declaration};
ghost use Rattle.scan_steps.specs.Slots.{AreSlotsOf, variable_at};
ghost use Rattle.power_flow.specs.LadderValue.{Fits};
ghost use Rattle.text_commands.specs.Series.{set_value};
ghost use Rattle.text_commands.specs.Restarts.{first_slots, input_places, kept_places, memories_off, restarted};
ghost use Rattle.text_commands.specs.Stores.{stored_places};
ghost use Rattle.text_commands.specs.Steps.Marks.{place_unmarked, with_marks};

use crate::stored::ladder_places;
use power_flow::{Ladder, State};
use std::alloc::{AllocError, Global};

/// Gives the variable at a place the value that it has in a state; nothing, where no variable stands there.
fn keep_variable(fresh: &mut State, state: &State, place: usize)
    requires { (ds : List Declaration) × AreSlotsOf ds fresh.old.slots × AreSlotsOf ds state.now.slots }
    ensures slots { fresh.new
        ≡ record fresh.old { slots = set_value fresh.old.slots place (variable_at state.now.slots place) } }
    ensures declared { (ds : List Declaration) → AreSlotsOf ds fresh.old.slots → AreSlotsOf ds fresh.new.slots }
{
    if let Some(value) = state.get(place) {
        let _set = fresh.set(place, value);
    }
}

/// The state behind a restart: all is as at first, but for the variables at the places that are kept.
pub fn restart(
    alloc: Global,
    ladder: &Ladder,
    kept: &[usize],
    state: &State,
) -> Result<State, AllocError>
    requires { Fits ladder.now state.now }
    ensures slots { IfOk result
        (λ fresh. fresh.slots ≡ restarted kept.now (first_slots ladder.now.declarations) state.now.slots) }
    ensures memories { IfOk result (λ fresh. fresh.memories ≡ memories_off ladder.now.networks) }
    ensures fits { IfOk result (Fits ladder.now) }
{
    let mut fresh = ladder.initial(alloc)?;
    for place in kept {
        keep_variable(&mut fresh, state, *place);
    }
    Ok(fresh)
}

/// Marks a place.
fn mark(marks: &mut Vec<bool>, place: usize)
    ensures { marks.new.items ≡ slice_set marks.old.items place true }
{
    if place < marks.len() {
        marks[place] = true;
    }
}

fn mark_all(marks: &mut Vec<bool>, places: &[usize])
    ensures { marks.new.items ≡ with_marks places.now marks.old.items }
{
    for place in places {
        mark(marks, *place);
    }
}

/// A mark for each name of a ladder, set where the ladder stores.
fn stored_marks(alloc: Global, ladder: &Ladder) -> Result<Vec<bool>, AllocError>
    ensures { IfOk result (λ marks. marks.items
        ≡ with_marks (stored_places ladder.now.declarations ladder.now.networks)
        (replicate (length ladder.now.declarations) false)) }
{
    let stored = ladder_places(alloc, ladder)?;
    let mut marks = vec![in alloc; false; ladder.declarations().len()]?;
    mark_all(&mut marks, &stored);
    Ok(marks)
}

/// Adds a place, unless it is marked.
fn push_unmarked(places: &mut Vec<usize>, marks: &[bool], place: usize) -> Result<(), AllocError>
    ensures { OnOk result (places.new.items ≡ places.old.items ++ place_unmarked marks.now place) }
{
    match marks.get(place) {
        Some(true) => Ok(()),
        _ => Ok(places.push(place)?),
    }
}

/// The places of the inputs: those at which nothing is stored.
fn input_places(alloc: Global, ladder: &Ladder) -> Result<Vec<usize>, AllocError>
    ensures { IfOk result (λ places. places.items ≡ input_places ladder.now.declarations ladder.now.networks) }
{
    let marks = stored_marks(alloc, ladder)?;
    let mut places = Vec::new(alloc);
    for place in 0..ladder.declarations().len() {
        push_unmarked(&mut places, &marks, place)?;
    }
    Ok(places)
}

/// What a restart keeps: the inputs, at which no coil and no output pin stores, and the variables at the places that
/// are retained.
pub fn kept_places(
    alloc: Global,
    ladder: &Ladder,
    retained: &[usize],
) -> Result<Vec<usize>, AllocError>
    ensures { IfOk result
        (λ places. places.items ≡ kept_places ladder.now.declarations ladder.now.networks retained.now) }
{
    let mut places = input_places(alloc, ladder)?;
    places.extend_from_slice(retained)?;
    Ok(places)
}
