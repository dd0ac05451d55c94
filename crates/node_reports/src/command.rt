ghost use Rattle.std.specs.Prelude.{◌≡◌, IfOk};

use crate::act::Act;
use std::alloc::AllocError;

/// What a resource is asked to do. Tickets number the commands of a run: 1, 2, 3 and so on.
#[derive(Drop)]
pub struct Command {
    pub ticket: u64,
    pub resource: usize,
    pub act: Act,
}

impl Command {
    /// An equal command.
    pub fn try_copy(&self) -> Result<Command, AllocError>
        ensures { IfOk result (λ copy. copy ≡ self.now) }
    {
        Ok(Command {
            ticket: self.ticket,
            resource: self.resource,
            act: self.act.try_copy()?,
        })
    }
}
