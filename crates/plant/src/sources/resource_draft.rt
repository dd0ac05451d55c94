ghost use Rattle.std.specs.Prelude.{◌≡◌};

use crate::sources::task_draft::TaskDraft;
use std::marker::Model;
use words::Text;

/// A resource before its sources are resolved: its name, and the draft of each task. Contracts see a resource with codes alone.
#[derive(Drop)]
pub struct ResourceDraft {
    name: Text,
    tasks: Vec<TaskDraft>,
}

impl Model for ResourceDraft {
    ghost use Rattle.std.specs.Prelude.{[]};
    ghost use Rattle.plant.specs.PlantValue.{ResourceValue};

    ghost Value = { ResourceValue };

    ghost view = { λ r. record { name = r.name; tasks = []; codes = r.tasks.items } };
}

impl ResourceDraft {
    /// A resource of this name with these tasks.
    pub fn new(name: Text, tasks: Vec<TaskDraft>) -> ResourceDraft
        ensures name { result.name ≡ name }
        ensures codes { result.codes ≡ tasks.items }
    {
        ResourceDraft { name, tasks }
    }

    /// The name as it was declared.
    pub fn name(&self) -> &str
        ensures { result.now ≡ self.now.name }
    {
        self.name.as_str()
    }

    /// The drafts of its tasks in order of declaration.
    pub fn tasks(&self) -> &[TaskDraft]
        ensures { result.now ≡ self.now.codes }
    {
        self.tasks.as_slice()
    }
}
