ghost use Rattle.std.specs.Prelude.{◌≡◌, ◌≤◌, length, map, IfOk, IfErr, All};
ghost use Rattle.task_codes.specs.declared.plan_fault.PlanFault.TheVariants.{TooLong};
ghost use Rattle.task_codes.specs.Plan.{AllTimed, timings_in};
ghost use Rattle.plant.specs.Plan.{timing_of, timings_of, IsPlan, IsPlanTooLong};

use crate::plant::Plant;
use crate::task::Task;
use std::alloc::{AllocError, Global};
use task_codes::{Due, PlanFault, Timing};

/// When the tasks of a resource are due.
fn timings_of(alloc: Global, tasks: &[Task]) -> Result<Vec<Timing>, AllocError>
    ensures ok { IfOk result (λ timings. timings.items ≡ map timing_of tasks.now) }
    ensures positive { IfOk result (λ timings. AllTimed timings.items) }
{
    let mut timings = Vec::new(alloc);
    for task in tasks {
        timings.push(Timing {
            interval: task.interval(),
            priority: task.priority(),
        })?;
    }
    Ok(timings)
}

/// When the tasks of each resource are due.
fn all_timings(alloc: Global, plant: &Plant) -> Result<Vec<Vec<Timing>>, AllocError>
    ensures ok { IfOk result (λ timings. timings_in timings.items ≡ timings_of plant.now) }
    ensures positive { IfOk result (λ timings. All AllTimed (timings_in timings.items)) }
{
    let mut timings = Vec::new(alloc);
    for resource in 0..plant.resources() {
        timings.push(timings_of(alloc, plant.tasks(resource))?)?;
    }
    Ok(timings)
}

/// The plan up to and with `until` (in ms): all pairs of a task and a positive multiple of its interval, by moment, priority, resource and task.
/// `TooLong` comes exactly where they are more than 100,000. By `one_plan` there is one.
pub fn plan(alloc: Global, plant: &Plant, until: u32) -> Result<Vec<Due>, PlanFault>
    ensures ok { IfOk result (λ dues. IsPlan plant.now until dues.items × (length dues.items ≤ 100000)) }
    ensures too_long { IfErr result (λ fault. fault ≡ TooLong → IsPlanTooLong plant.now until) }
{
    let timings = all_timings(alloc, plant)?;
    task_codes::plan(alloc, &timings, until)
}
