use crate::last::Last;
use evaluation::{Frame, Message, Name, Retained, TaskState};
use plant::Plant;
use std::alloc::{AllocError, Global};
use std::marker::Model;
use task_codes::{TaskCode, TaskRef};

/// What is known of each task of a plant, by resource and task.
#[derive(Drop)]
pub struct Known {
    rows: Vec<Vec<Option<Last>>>,
}

impl Model for Known {
    ghost use Rattle.std.specs.Prelude.{map};
    ghost use Rattle.exchange_core.specs.HeldMessages.{Table};

    ghost Value = { Table };

    ghost view = { λ t. map (λ row. row.items) t.rows.items };
}

ghost use Rattle.std.specs.Prelude.{◌≡◌, IfOk, None, Some, replicate};
ghost use Rattle.std.specs.Option.{option_copied};
ghost use Rattle.evaluation.specs.Retained.{Suits};
ghost use Rattle.evaluation.specs.States.{AreStatesOf};
ghost use Rattle.evaluation.specs.Last.{state_from, last_number};
ghost use Rattle.exchange_core.specs.HeldMessages.{known, whole_known, message_known, with_known, empty_for};
ghost use Rattle.exchange_core.specs.MessageCoreValue.{is_greater};
ghost use Rattle.exchange_core.specs.Steps.KnowingMessages.{has_place, FitsLast};

impl Known {
    /// A table in which nothing is known.
    pub fn empty(alloc: Global, plant: &Plant) -> Result<Known, AllocError>
        ensures { IfOk result (λ table. table ≡ empty_for plant.now) }
    {
        let resources = plant.resources();
        let mut rows = Vec::with_capacity(alloc, resources)?;
        for resource in 0..resources {
            rows.push(empty_row(alloc, plant.tasks(resource).len())?)?;
        }
        Ok(Known { rows })
    }

    /// What is known of a task.
    pub fn get(&self, task: TaskRef) -> Option<&Last>
        ensures { option_copied result ≡ known self.now task }
    {
        match self.rows.get(task.resource) {
            None => None,
            Some(row) => match row.get(task.task) {
                None => None,
                Some(last) => last.as_ref(),
            },
        }
    }

    /// The evaluation known of a task, where it is known as a whole.
    pub fn whole(&self, task: TaskRef) -> Option<&Frame>
        ensures { option_copied result ≡ whole_known self.now task }
    {
        match self.get(task) {
            None => None,
            Some(last) => last.whole(),
        }
    }

    /// The message known of a task.
    pub fn message(&self, task: TaskRef) -> Option<&Message>
        ensures { option_copied result ≡ message_known self.now task }
    {
        match self.get(task) {
            None => None,
            Some(last) => Some(last.message()),
        }
    }

    /// Makes this what is known of a task.
    pub fn set(&mut self, task: TaskRef, last: Last)
        requires { has_place self.old task }
        ensures { self.new ≡ with_known self.old task (Some last) }
    {
        let row = &mut self.rows[task.resource];
        row[task.task] = Some(last);
    }

    /// The number of a task's last evaluation, or 0.
    pub fn last_number(&self, task: TaskRef) -> u32
        ensures { result ≡ last_number (whole_known self.now task) }
    {
        match self.whole(task) {
            None => 0,
            Some(last) => last.name().number,
        }
    }

    /// The state after a task's last evaluation, or the warm state of what was kept.
    pub fn state_from(
        &self,
        alloc: Global,
        task: TaskRef,
        code: &TaskCode,
        kept: &Retained,
    ) -> Result<TaskState, AllocError>
        requires fits { FitsLast code.now (whole_known self.now task) }
        requires suits { Suits code.now kept.now }
        ensures value { IfOk result (λ s. s ≡ state_from code.now kept.now (whole_known self.now task)) }
        ensures fits { IfOk result (λ s. AreStatesOf code.now s) }
    {
        match self.whole(task) {
            None => TaskState::warm(alloc, code, kept),
            Some(last) => last.evaluation().after().try_copy(),
        }
    }

    /// Whether a name's pair of incarnation and number is greater than that of what is known of its task.
    pub fn admits(&self, name: Name) -> bool
        ensures { result ≡ is_greater (message_known self.now name.task) name }
    {
        match self.message(name.task) {
            None => true,
            Some(held) => held.name().precedes(&name),
        }
    }
}

/// A row in which nothing is known.
fn empty_row(alloc: Global, tasks: usize) -> Result<Vec<Option<Last>>, AllocError>
    ensures { IfOk result (λ row. row.items ≡ replicate tasks None) }
{
    let mut row = Vec::with_capacity(alloc, tasks)?;
    for _task in 0..tasks {
        row.push(None)?;
    }
    Ok(row)
}
