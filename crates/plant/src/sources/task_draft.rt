ghost use Rattle.std.specs.Prelude.{◌≡◌, IfOk};
ghost use Rattle.task_codes.specs.CodeValue.{outputs_of};

use crate::sources::images::outputs_of;
use std::alloc::{AllocError, Global};
use std::marker::Model;
use task_codes::{ProgramInstance, TaskOutput};

/// The programs of a task and their outputs, before the task's sources are resolved. Contracts see a code without bindings.
#[derive(Drop)]
pub struct TaskDraft {
    programs: Vec<ProgramInstance>,
    outputs: Vec<TaskOutput>,
}

impl Model for TaskDraft {
    ghost use Rattle.std.specs.Prelude.{◌≡◌};
    ghost use Rattle.task_codes.specs.CodeValue.{CodeValue, outputs_of};
    ghost use Rattle.plant.specs.Steps.Drafts.{unbound_code};

    ghost Value = { CodeValue };

    ghost view = { λ d. unbound_code d.programs.items d.outputs.items };

    ghost invariant = { λ d. d.outputs.items ≡ outputs_of d.programs.items };
}

impl TaskDraft {
    /// The draft of a task that runs these programs.
    pub fn new(alloc: Global, programs: Vec<ProgramInstance>) -> Result<TaskDraft, AllocError>
        ensures { IfOk result (λ d. d.programs ≡ programs.items) }
    {
        let outputs = outputs_of(alloc, programs.as_slice())?;
        Ok(TaskDraft { programs, outputs })
    }

    /// The programs in order of declaration.
    pub fn programs(&self) -> &[ProgramInstance]
        ensures list { result.now ≡ self.now.programs }
        ensures outputs { self.now.outputs ≡ outputs_of self.now.programs }
    {
        self.programs.as_slice()
    }

    /// The outputs in order of program and place.
    pub fn outputs(&self) -> &[TaskOutput]
        ensures { result.now ≡ self.now.outputs }
    {
        self.outputs.as_slice()
    }
}
