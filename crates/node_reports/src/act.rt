ghost use Rattle.std.specs.Prelude.{◌≡◌, IfOk};

use evaluation::Inputs;
use std::alloc::AllocError;

/// What a resource is to do.
#[derive(Drop)]
pub enum Act {
    /// It evaluates its task at this position, `dt` milliseconds after the task's evaluation before, with these field inputs.
    Evaluate {
        task: usize,
        dt: u32,
        inputs: Inputs,
    },
    /// It restarts: it forgets all but what its tasks retain, and its incarnation rises.
    Restart,
}

impl Act {
    /// An equal act.
    pub fn try_copy(&self) -> Result<Act, AllocError>
        ensures { IfOk result (λ copy. copy ≡ self.now) }
    {
        match self {
            Act::Evaluate { task, dt, inputs } => Ok(Act::Evaluate {
                task: *task,
                dt: *dt,
                inputs: inputs.try_copy()?,
            }),
            Act::Restart => Ok(Act::Restart),
        }
    }
}
