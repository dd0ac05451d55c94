//! What the tasks of a plant open with.

ghost use Rattle.std.specs.Prelude.{◌≡◌, ◌↔◌, IsTrue, IfOk};
ghost use Rattle.task_codes.specs.CodeValue.{lists_of};
ghost use Rattle.world.specs.History.{AreOpenings, initial_openings};

use evaluation::Retained;
use exchange_core::{initial_opening, is_opening};
use plant::Plant;
use std::alloc::{AllocError, Global};

/// The openings of a plant of which nothing was kept: for each resource and each of its tasks FALSE, 0 or T#0ms for each
/// retained variable.
pub fn initial_openings(alloc: Global, plant: &Plant) -> Result<Vec<Vec<Retained>>, AllocError>
    ensures value { IfOk result (λ opening. lists_of opening.items ≡ initial_openings plant.now) }
    ensures suits { IfOk result (λ opening. AreOpenings plant.now (lists_of opening.items)) }
{
    let mut opening = Vec::with_capacity(alloc, plant.resources())?;
    for resource in 0..plant.resources() {
        opening.push(initial_opening(alloc, plant, resource)?)?;
    }
    Ok(opening)
}

/// Whether these are openings of a plant: one for each task of each resource, of the kinds of the task's retained
/// variables. No memory is needed.
pub fn are_openings(plant: &Plant, opening: &[Vec<Retained>]) -> bool
    ensures { IsTrue result ↔ AreOpenings plant.now (lists_of opening.now) }
{
    if opening.len() != plant.resources() {
        return false;
    }
    for resource in 0..opening.len() {
        if !is_opening(plant, resource, opening[resource].as_slice()) {
            return false;
        }
    }
    true
}

/// Equal openings.
pub fn copy_of_openings(
    alloc: Global,
    opening: &[Vec<Retained>],
) -> Result<Vec<Vec<Retained>>, AllocError>
    ensures { IfOk result (λ copy. lists_of copy.items ≡ lists_of opening.now) }
{
    let mut copy = Vec::with_capacity(alloc, opening.len())?;
    for tasks in opening {
        copy.push(Retained::try_copy_all(alloc, tasks.as_slice())?)?;
    }
    Ok(copy)
}
