//! What many tests do with events: a world after them, and the book of its log.

use crate::checks::{holds, must};
use evaluation::{Frame, Retained};
use plant::Plant;
use std::alloc::Global;
use std::process::Abort;
use std::sync::Arc;
use world::{Book, Event, World, are_openings, initial_openings};

pub fn plant_of(rt: &impl Abort, alloc: Global, text: &str) -> Arc<Plant> {
    let plant = must(rt, Plant::read(alloc, text));
    must(rt, Arc::new(alloc, plant))
}

/// A world before any event, of which nothing was kept.
pub fn fresh_world(rt: &impl Abort, alloc: Global, plant: &Arc<Plant>, first: &[u32]) -> World {
    let opening = must(rt, initial_openings(alloc, plant));
    opened_world(rt, alloc, plant, first, opening.as_slice())
}

/// A world before any event, with these openings.
pub fn opened_world(
    rt: &impl Abort,
    alloc: Global,
    plant: &Arc<Plant>,
    first: &[u32],
    opening: &[Vec<Retained>],
) -> World {
    let plant = must(rt, Arc::try_clone(plant));
    assert!(rt; first.len() == plant.resources());
    assert!(rt; are_openings(&plant, opening));
    must(rt, World::new(alloc, plant, first, opening, u32::MAX))
}

/// A world after these events.
pub fn world_after(
    rt: &impl Abort,
    alloc: Global,
    plant: &Arc<Plant>,
    first: &[u32],
    events: &[Event],
) -> World {
    let mut world = fresh_world(rt, alloc, plant, first);
    holds(
        rt,
        "there is memory for a run",
        world.run(alloc, events).is_ok(),
    );
    world
}

/// The book of a log that fits.
pub fn book_of(rt: &impl Abort, alloc: Global, first: &[u32], log: &[Frame]) -> Book {
    let mut book = must(rt, Book::new(alloc, first));
    for frame in log {
        let entered = book.enter(must(rt, frame.try_clone()));
        must(rt, entered.map_err(|(_, misfit)| misfit));
    }
    book
}

pub fn are_same(frames: &[Frame], others: &[Frame]) -> bool {
    frames.len() == others.len()
        && frames
            .iter()
            .zip(others)
            .all(|(frame, other)| frame.same(other))
}
