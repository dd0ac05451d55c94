use crate::plant_resource::PlantResource;
use crate::task::Task;
use std::marker::Model;
use std::sync::Arc;
use task_codes::{TaskCode, TaskRef};

/// A plant: resources with their tasks, and what each task runs and takes from others.
#[derive(Drop)]
pub struct Plant {
    resources: Vec<PlantResource>,
}

impl Model for Plant {
    ghost use Rattle.plant.specs.PlantValue.{PlantValue, IsSoundPlant};

    ghost Value = { PlantValue };

    ghost view = { λ p. record { resources = p.resources.items } };

    ghost invariant = { λ p. IsSoundPlant (record { resources = p.resources.items }) };
}

impl Plant {
    ghost use Rattle.std.specs.Prelude.{◌≡◌, length};
    ghost use Rattle.std.specs.Option.{option_map};
    ghost use Rattle.plant.specs.PlantValue.{IsSoundPlant, resource_name_at, tasks_at, code_at, producers_at};

    /// A plant of these resources.
    pub(crate) fn new(resources: Vec<PlantResource>) -> Plant
        requires { IsSoundPlant (record { resources = resources.items }) }
        ensures { result ≡ record { resources = resources.items } }
    {
        Plant { resources }
    }

    /// How many resources there are.
    pub fn resources(&self) -> usize
        ensures count { result ≡ length self.now.resources }
        ensures sound { IsSoundPlant self.now }
    {
        self.resources.len()
    }

    /// The name of a resource as it was declared.
    pub fn resource_name(&self, resource: usize) -> Option<&str>
        ensures { option_map (λ n. n.now) result ≡ resource_name_at self.now resource }
    {
        match self.resources.get(resource) {
            Some(found) => Some(found.name()),
            None => None,
        }
    }

    /// The tasks of a resource in order of declaration; empty where there is no such resource.
    pub fn tasks(&self, resource: usize) -> &[Task]
        ensures { result.now ≡ tasks_at self.now resource }
    {
        match self.resources.get(resource) {
            Some(found) => found.tasks(),
            None => &[],
        }
    }

    /// The code of a task.
    pub fn code(&self, task: TaskRef) -> Option<&Arc<TaskCode>>
        ensures { option_map (λ c. c.now.value) result ≡ code_at self.now task }
    {
        match self.resources.get(task.resource) {
            Some(found) => found.code(task.task),
            None => None,
        }
    }

    /// The tasks from which a task takes, in order of first mention; empty where there is no such task.
    pub fn producers(&self, task: TaskRef) -> &[TaskRef]
        ensures { result.now ≡ producers_at self.now task }
    {
        match self.code(task) {
            Some(code) => code.producers(),
            None => &[],
        }
    }
}
