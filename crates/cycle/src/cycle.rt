ghost use Rattle.std.specs.Prelude.{◌≡◌, ◌<◌, ◌≤◌, All, IfOk, max, position};
ghost use Rattle.cycle.specs.Cycle.{cycle_of, declared, is_due, place_at, round_at, AllNarrow, AllPositive, IsAsked, IsCycleOf, NoneDueBefore};

use crate::asked::Asked;
use crate::cycled_task::CycledTask;
use plant::Task;
use std::alloc::{AllocError, Global};
use std::marker::Model;

/// Which task of a resource is evaluated at which reading of a clock, and with which `dt`. A reading is in whole ms since
/// the start; it never goes back: one that is earlier than the latest counts as that.
#[derive(Drop)]
pub struct Cycle {
    tasks: Vec<CycledTask>,
    round: u64,
    latest: u64,
}

impl Model for Cycle {
    ghost use Rattle.cycle.specs.Cycle.{CycleValue, IsCycle, cycle_of};

    ghost Value = { CycleValue };

    ghost view = { λ c. cycle_of c.tasks.items c.round c.latest };

    ghost invariant = { λ c. IsCycle (cycle_of c.tasks.items c.round c.latest) };
}

/// The tasks of a resource, in order of declaration; none is evaluated.
fn declared(alloc: Global, tasks: &[Task]) -> Result<Vec<CycledTask>, AllocError>
    ensures tasks { IfOk result (λ cycled. cycled.items ≡ declared tasks.now) }
    ensures positive { IfOk result (λ cycled. AllPositive cycled.items) }
    ensures narrow { IfOk result (λ cycled. AllNarrow cycled.items) }
{
    let mut cycled = Vec::with_capacity(alloc, tasks.len())?;
    for (place, task) in tasks.iter().enumerate() {
        cycled.push(CycledTask {
            priority: task.priority(),
            task: place,
            interval: task.interval(),
            evaluated: 0,
        })?;
    }
    Ok(cycled)
}

/// The place of the first task that is due at a reading.
fn first_due(tasks: &[CycledTask], reading: u64) -> Option<usize>
    requires { AllPositive tasks.now }
    ensures { result ≡ position (is_due reading) tasks.now }
{
    for (place, task) in tasks.iter().enumerate() {
        if task.is_due(reading) {
            return Some(place);
        }
    }
    None
}

/// Before this moment none of the tasks is due.
fn first_moment(tasks: &[CycledTask]) -> u64
    requires { AllPositive tasks.now }
    ensures { All (NoneDueBefore result) tasks.now }
{
    let mut first = u64::MAX;
    for task in tasks {
        first = first.min(task.next_due());
    }
    first
}

impl Cycle {
    /// The cycle of the tasks of a resource: none is evaluated at its start.
    pub fn of(alloc: Global, tasks: &[Task]) -> Result<Cycle, AllocError>
        ensures { IfOk result (IsCycleOf tasks.now) }
    {
        let mut tasks = declared(alloc, tasks)?;
        tasks.sort_unstable();
        Ok(Cycle {
            tasks,
            round: 0,
            latest: 0,
        })
    }

    /// The place of the task that is evaluated at the latest reading, if one is. Where the round is over the next one begins.
    fn next_place(&mut self) -> Option<usize>
        ensures place { result ≡ place_at self.old self.old.latest }
        ensures round { self.new ≡ cycle_of self.old.tasks (round_at self.old self.old.latest) self.old.latest }
    {
        if let Some(place) = first_due(&self.tasks, self.round) {
            return Some(place);
        }
        self.round = self.latest;
        first_due(&self.tasks, self.round)
    }

    /// The evaluation that is to be made at a reading, if one is.
    pub fn ask(&mut self, reading: u64) -> Option<Asked>
        ensures { IsAsked self.old self.new (max self.old.latest reading) result }
    {
        self.latest = self.latest.max(reading);
        match self.next_place() {
            Some(place) => Some(self.tasks[place].evaluate(self.latest)),
            None => None,
        }
    }

    /// Before this moment no task is due; 18,446,744,073,709,551,615 where none is due before that.
    pub fn next_due(&self) -> u64
        ensures { All (NoneDueBefore result) self.now.tasks }
    {
        first_moment(&self.tasks)
    }
}
