ghost use Rattle.std.specs.Prelude.{◌≡◌, IfOk};

use power_flow::Ladder;
use std::alloc::{AllocError, Global};
use std::marker::Model;
use std::sync::Arc;
use words::Text;

/// A program of a task: the instance's name, the ladder, which instances of one type share, and the places of the variables that outlive a restart.
#[derive(Drop)]
pub struct ProgramInstance {
    name: Text,
    ladder: Arc<Ladder>,
    retained: Vec<usize>,
}

impl Model for ProgramInstance {
    ghost use Rattle.task_codes.specs.CodeValue.{ProgramValue};

    ghost Value = { ProgramValue };

    ghost view = { λ p. record { name = p.name; ladder = p.ladder.value; retained = p.retained.items } };
}

impl ProgramInstance {
    /// An instance of a ladder, of which the variables at these places outlive a restart.
    pub fn new(name: Text, ladder: Arc<Ladder>, retained: Vec<usize>) -> ProgramInstance
        ensures { result ≡ record { name = name; ladder = ladder.value; retained = retained.items } }
    {
        ProgramInstance {
            name,
            ladder,
            retained,
        }
    }

    /// An instance of the same name, which shares the ladder.
    pub fn try_copy(&self, alloc: Global) -> Result<ProgramInstance, AllocError>
        ensures { IfOk result (λ p. p ≡ self.now) }
    {
        let name = self.name.try_copy(alloc)?;
        let ladder = Arc::try_clone(&self.ladder)?;
        let retained = self.retained.clone()?;
        Ok(ProgramInstance {
            name,
            ladder,
            retained,
        })
    }

    /// The instance's name.
    pub fn name(&self) -> &str
        ensures { result.now ≡ self.now.name }
    {
        self.name.as_str()
    }

    /// The ladder.
    pub fn ladder(&self) -> &Ladder
        ensures { result.now ≡ self.now.ladder }
    {
        &self.ladder
    }

    /// The places of the variables that outlive a restart, in order of declaration.
    pub fn retained(&self) -> &[usize]
        ensures { result.now ≡ self.now.retained }
    {
        self.retained.as_slice()
    }
}
