ghost use Rattle.std.specs.Prelude.{◌≡◌, Some, IfSome, OnOk, OnErr};
ghost use Rattle.std.specs.List.{find, position};
ghost use Rattle.std.specs.Option.{option_copied};
ghost use Rattle.book.specs.Steps.Ledger.{is_row, places_in, last_index, index_of, AreRising, AddsPlace, KeepsPlaces, AddsRow};

use crate::book::ledger::place::Place;
use crate::book::ledger::task_places::TaskPlaces;
use std::alloc::AllocError;
use task_codes::TaskRef;

/// The places of a task's entries.
pub fn places_of(rows: &[TaskPlaces], task: TaskRef) -> &[Place]
    ensures { result.now ≡ places_in rows.now task }
{
    match find_row(rows, task) {
        None => &[],
        Some(row) => row.places.as_slice(),
    }
}

fn find_row(rows: &[TaskPlaces], task: TaskRef) -> Option<&TaskPlaces>
    ensures { option_copied result ≡ find (is_row task) rows.now }
{
    rows.iter().find(|row| row.task == task)
}

/// Where the last of the places is.
pub fn last_place(places: &[Place]) -> Option<usize>
    ensures { result ≡ last_index places.now }
{
    match places.last() {
        None => None,
        Some(place) => Some(place.index),
    }
}

/// Where the place of a pair is: as far before the last as its number is below the last one's, where numbers run on from it; else searched by halving.
pub fn find_place(places: &[Place], incarnation: u32, number: u32) -> Option<usize>
    ensures { AreRising places.now → result ≡ index_of incarnation number places.now }
{
    match place_before_last(places, incarnation, number) {
        Some(index) => Some(index),
        None => search_place(places, incarnation, number),
    }
}

/// Where the place of a pair is, if it stands as far before the last as its number is below the last one's.
fn place_before_last(places: &[Place], incarnation: u32, number: u32) -> Option<usize>
    ensures { AreRising places.now → IfSome result (λ index. Some index ≡ index_of incarnation number places.now) }
{
    let last = places.last()?;
    let below = last.number.checked_sub(number)? as usize;
    let before = places.len().checked_sub(1)?.checked_sub(below)?;
    let place = places.get(before)?;
    if place.incarnation == incarnation && place.number == number {
        Some(place.index)
    } else {
        None
    }
}

/// Where the place of a pair is, searched by halving.
fn search_place(places: &[Place], incarnation: u32, number: u32) -> Option<usize>
    ensures { AreRising places.now → result ≡ index_of incarnation number places.now }
{
    let pair = (incarnation, number);
    match places.binary_search_by_key(&pair, |place| (place.incarnation, place.number)) {
        Ok(i) => Some(places[i].index),
        Err(_) => None,
    }
}

/// Adds a place to a task's.
pub fn add_place(rows: &mut Vec<TaskPlaces>, task: TaskRef, place: Place) -> Result<(), AllocError>
    ensures ok { OnOk result (AddsPlace rows.old.items rows.new.items task place) }
    ensures err { OnErr result (KeepsPlaces rows.old.items rows.new.items) }
{
    match row_of(rows.as_slice(), task) {
        None => add_row(rows, task, place),
        Some(i) => {
            let row = &mut rows[i];
            row.places.push(place)?;
            Ok(())
        }
    }
}

fn row_of(rows: &[TaskPlaces], task: TaskRef) -> Option<usize>
    ensures { result ≡ position (is_row task) rows.now }
{
    rows.iter().position(|row| row.task == task)
}

fn add_row(rows: &mut Vec<TaskPlaces>, task: TaskRef, place: Place) -> Result<(), AllocError>
    ensures ok { OnOk result (AddsRow rows.old.items rows.new.items task place) }
    ensures err { OnErr result (rows.new.items ≡ rows.old.items) }
{
    let alloc = *rows.allocator();
    let mut places = Vec::with_capacity(alloc, 1)?;
    places.push(place)?;
    rows.push(TaskPlaces { task, places })?;
    Ok(())
}
