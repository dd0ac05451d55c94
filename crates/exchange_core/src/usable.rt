ghost use Rattle.std.specs.Prelude.{◌↔◌, IsTrue, Some, map};
ghost use Rattle.declared_names.specs.Kinds.{kind_of};
ghost use Rattle.exchange_core.specs.Openings.{Expects};
ghost use Rattle.exchange_core.specs.Steps.KnowingMessages.{ExpectsOf};

use evaluation::Image;
use plant::Plant;
use task_codes::{TaskCode, TaskRef};

/// Whether a code takes from a task, and expects an image of these kinds of it.
fn expects_of(code: &TaskCode, task: TaskRef, image: &Image) -> bool
    ensures { IsTrue result ↔ ExpectsOf code.now task (map kind_of image.now) }
{
    let producers = code.producers();
    for k in 0..producers.len() {
        if producers[k] == task && image.has_kinds(code.expected(k)) {
            return true;
        }
    }
    false
}

/// Whether some task of a resource takes from a task, and expects an image of these kinds of it.
pub fn expects(plant: &Plant, resource: usize, task: TaskRef, image: &Image) -> bool
    ensures { IsTrue result ↔ Expects plant.now resource task (map kind_of image.now) }
{
    // The getter hands out that each task has its code.
    let _resources = plant.resources();
    for k in 0..plant.tasks(resource).len() {
        if let Some(code) = plant.code(TaskRef { resource, task: k }) {
            if expects_of(code, task, image) {
                return true;
            }
        }
    }
    false
}
