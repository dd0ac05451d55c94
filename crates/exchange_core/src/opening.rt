ghost use Rattle.std.specs.Prelude.{◌≡◌, ◌↔◌, IsTrue, IfOk};
ghost use Rattle.exchange_core.specs.Openings.{AreOpeningOf, initial_opening};

use evaluation::Retained;
use plant::Plant;
use std::alloc::{AllocError, Global};
use task_codes::TaskRef;

/// What each task of a resource begins with where nothing was kept: FALSE, 0 and T#0ms for all retained variables.
pub fn initial_opening(
    alloc: Global,
    plant: &Plant,
    resource: usize,
) -> Result<Vec<Retained>, AllocError>
    ensures value { IfOk result (λ opening. opening.items ≡ initial_opening plant.now resource) }
    ensures suits { IfOk result (λ opening. AreOpeningOf plant.now resource opening.items) }
{
    // The getter hands out that each task has its code.
    let _resources = plant.resources();
    let tasks = plant.tasks(resource).len();
    let mut opening = Vec::with_capacity(alloc, tasks)?;
    for task in 0..tasks {
        if let Some(code) = plant.code(TaskRef { resource, task }) {
            opening.push(Retained::initial(alloc, code)?)?;
        }
    }
    Ok(opening)
}

/// Whether these are one for each task of a resource, and each of the kinds of its task's retained variables. No memory is needed.
pub fn is_opening(plant: &Plant, resource: usize, opening: &[Retained]) -> bool
    ensures { IsTrue result ↔ AreOpeningOf plant.now resource opening.now }
{
    // The getter hands out that each task has its code.
    let _resources = plant.resources();
    if opening.len() != plant.tasks(resource).len() {
        return false;
    }
    for task in 0..opening.len() {
        if let Some(code) = plant.code(TaskRef { resource, task }) {
            if !opening[task].suits(code) {
                return false;
            }
        }
    }
    true
}
