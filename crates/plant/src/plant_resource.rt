ghost use Rattle.std.specs.Prelude.{◌≡◌, map, slice_get};
ghost use Rattle.std.specs.Option.{option_map};

use crate::task::Task;
use std::marker::Model;
use std::sync::Arc;
use task_codes::TaskCode;
use words::Text;

/// A resource of a plant: its name, its tasks, and the code of each.
#[derive(Drop)]
pub struct PlantResource {
    name: Text,
    tasks: Vec<Task>,
    codes: Vec<Arc<TaskCode>>,
}

impl Model for PlantResource {
    ghost use Rattle.std.specs.Prelude.{map};
    ghost use Rattle.plant.specs.PlantValue.{ResourceValue};

    ghost Value = { ResourceValue };

    ghost view = { λ r. record { name = r.name; tasks = r.tasks.items; codes = map (λ c. c.value) r.codes.items } };
}

impl PlantResource {
    /// A resource of these parts.
    pub(crate) fn new(name: Text, tasks: Vec<Task>, codes: Vec<Arc<TaskCode>>) -> PlantResource
        ensures { result ≡ record { name = name; tasks = tasks.items; codes = map (λ c. c.value) codes.items } }
    {
        PlantResource { name, tasks, codes }
    }

    /// The name as it was declared.
    pub(crate) fn name(&self) -> &str
        ensures { result.now ≡ self.now.name }
    {
        self.name.as_str()
    }

    /// The tasks in order of declaration.
    pub(crate) fn tasks(&self) -> &[Task]
        ensures { result.now ≡ self.now.tasks }
    {
        self.tasks.as_slice()
    }

    /// The code of the task at a position.
    pub(crate) fn code(&self, task: usize) -> Option<&Arc<TaskCode>>
        ensures { option_map (λ c. c.now.value) result ≡ slice_get self.now.codes task }
    {
        self.codes.get(task)
    }
}
