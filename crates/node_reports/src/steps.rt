use crate::step::Step;
use std::alloc::{AllocError, Global};
use std::marker::Model;

/// The steps of a journal, in their order.
#[derive(Drop)]
pub struct Steps {
    listed: Vec<Step>,
}

impl Model for Steps {
    ghost use Rattle.std.specs.Prelude.{List};
    ghost use Rattle.node_reports.specs.declared.step.Step.{Step};

    ghost Value = { List Step };

    ghost view = { λ s. s.listed.items };
}

ghost use Rattle.std.specs.Prelude.{◌≡◌, ◌+◌, ◌≤◌, [], ◌∷◌, ◌++◌, OnOk, OnErr, length, take, vec_len, vec_capacity};

/// Makes room for one more step.
fn make_room(listed: &mut Vec<Step>) -> Result<(), AllocError>
    ensures same { listed.new.items ≡ listed.old.items }
    ensures room { OnOk result (vec_len listed.new + 1 ≤ vec_capacity listed.new) }
{
    listed.reserve(1)
}

impl Steps {
    /// No steps.
    pub(crate) fn new(alloc: Global) -> Steps
        ensures { result ≡ [] }
    {
        Steps {
            listed: Vec::new(alloc),
        }
    }

    /// How many steps there are.
    pub(crate) fn len(&self) -> usize
        ensures { result ≡ length self.now }
    {
        self.listed.len()
    }

    /// Makes room for one more step.
    pub(crate) fn make_room(&mut self) -> Result<(), AllocError>
        ensures { self.new ≡ self.old }
    {
        make_room(&mut self.listed)
    }

    /// Appends a step.
    pub(crate) fn push(&mut self, step: Step) -> Result<(), AllocError>
        ensures ok { OnOk result (self.new ≡ self.old ++ step ∷ []) }
        ensures err { OnErr result (self.new ≡ self.old) }
    {
        self.listed.push(step)?;
        Ok(())
    }

    /// Keeps so many of the first steps.
    pub(crate) fn truncate(&mut self, count: usize)
        ensures { self.new ≡ take count self.old }
    {
        self.listed.truncate(count);
    }

    /// The steps as a slice.
    pub fn as_slice(&self) -> &[Step]
        ensures { result.now ≡ self.now }
    {
        self.listed.as_slice()
    }
}
