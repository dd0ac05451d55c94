ghost use Rattle.std.specs.Prelude.{MatchOption, Contains};
ghost use Rattle.plant.specs.Find.{ArePartsOf, IsTaskAt, IsTaskNamed, Finds};

use crate::named::find_named;
use crate::plant::Plant;
use plant_grammar::is_named;
use task_codes::TaskRef;

/// The parts of a name before and behind its first dot.
fn parts(name: &str) -> Option<(&str, &str)>
    ensures { MatchOption result (Contains name.now 46 → ⊥) (λ x. ArePartsOf name.now x.0.now x.1.now) }
{
    name.split_once('.')
}

impl Plant {
    /// The position of a task in a resource, if that has the other name.
    fn task_in(&self, resource: usize, owner: &str, task: &str) -> Option<usize>
        ensures { Finds (λ k. IsTaskAt self.now owner.now task.now (record { resource = resource; task = k })) result }
    {
        let name = self.resource_name(resource)?;
        if !is_named(owner, name) {
            return None;
        }
        find_named(self.tasks(resource), task)
    }

    /// The task of two names, its resource's and its own.
    fn task_of(&self, owner: &str, task: &str) -> Option<TaskRef>
        ensures { Finds (IsTaskAt self.now owner.now task.now) result }
    {
        for resource in 0..self.resources() {
            match self.task_in(resource, owner, task) {
                Some(task) => return Some(TaskRef { resource, task }),
                None => {}
            }
        }
        None
    }

    /// The task of a name such as `R1.MAIN`: the resource's name, a dot, and the task's, in either case.
    pub fn find(&self, name: &str) -> Option<TaskRef>
        ensures { Finds (IsTaskNamed self.now name.now) result }
    {
        match parts(name) {
            Some((owner, task)) => self.task_of(owner, task),
            None => None,
        }
    }
}
