ghost use Rattle.std.specs.Prelude.{◌≡◌, ◌<◌, ◌≤◌, ◌++◌, length, IfOk, IfErr, OnOk, All};
ghost use Rattle.task_codes.specs.Steps.Slots.{slots_in, slots_of, HaveIntervals, is_due, dues_at, AreTooMany, dues_until, NoneDue};
ghost use Rattle.task_codes.specs.Plan.{AllTimed, timings_in, IsShortPlanOf, HasLongPlan};
ghost use Rattle.task_codes.specs.declared.plan_fault.PlanFault.TheVariants.{Memory, TooLong};

use crate::due::Due;
use crate::plan_fault::PlanFault;
use crate::slot::Slot;
use crate::task_ref::TaskRef;
use crate::timing::Timing;
use std::alloc::Global;

/// The most entries that a plan has.
const MOST_ENTRIES: usize = 100_000;

/// Adds the tasks of a resource.
fn push_slots(slots: &mut Vec<Slot>, tasks: &[Timing], resource: usize) -> Result<(), PlanFault>
    requires { AllTimed tasks.now }
    ensures ok { OnOk result (slots.new.items ≡ slots.old.items ++ slots_in resource tasks.now) }
    ensures positive { OnOk result (HaveIntervals slots.old.items → HaveIntervals slots.new.items) }
    ensures err { IfErr result (λ fault. fault ≡ Memory) }
{
    for (task, timing) in tasks.iter().enumerate() {
        slots.push(Slot {
            priority: timing.priority,
            resource,
            task,
            interval: timing.interval,
        })?;
    }
    Ok(())
}

/// All tasks, by resource and task.
fn slots(alloc: Global, tasks: &[Vec<Timing>]) -> Result<Vec<Slot>, PlanFault>
    requires { All AllTimed (timings_in tasks.now) }
    ensures ok { IfOk result (λ slots. slots.items ≡ slots_of (timings_in tasks.now)) }
    ensures positive { IfOk result (λ slots. HaveIntervals slots.items) }
    ensures err { IfErr result (λ fault. fault ≡ Memory) }
{
    let mut slots = Vec::new(alloc);
    for (resource, timings) in tasks.iter().enumerate() {
        push_slots(&mut slots, timings, resource)?;
    }
    Ok(slots)
}

fn is_due(moment: u32, slot: &Slot) -> bool
    requires { 0 < slot.now.interval }
    ensures { result ≡ is_due moment slot.now }
{
    moment % slot.interval == 0
}

/// The first moment above a moment at which a task is due, at most `end`.
fn next_of(slot: &Slot, moment: u32, end: u64) -> u64
    requires positive { 0 < slot.now.interval }
    requires before { moment < end }
    ensures above { moment < result }
    ensures end { result ≤ end }
    ensures none { NoneDue slot.now moment result }
{
    let wait = slot.interval - moment % slot.interval;
    (u64::from(moment) + u64::from(wait)).min(end)
}

/// The first moment above a moment at which one of the tasks is due, at most `end`.
fn first_after(order: &[Slot], moment: u32, end: u64) -> u64
    requires positive { HaveIntervals order.now }
    requires before { moment < end }
    ensures above { moment < result }
    ensures end { result ≤ end }
    ensures none { All (λ s. NoneDue s moment result) order.now }
{
    let mut first = end;
    for slot in order {
        first = first.min(next_of(slot, moment, end));
    }
    first
}

/// Adds what is due at a moment.
fn push_dues(dues: &mut Vec<Due>, order: &[Slot], moment: u32) -> Result<(), PlanFault>
    requires positive { HaveIntervals order.now }
    requires few { length dues.old.items ≤ 100000 }
    ensures ok { OnOk result (dues.new.items ≡ dues.old.items ++ dues_at order.now moment) }
    ensures few { OnOk result (length dues.new.items ≤ 100000) }
    ensures too_long { IfErr result (λ fault. fault ≡ TooLong → AreTooMany dues.old.items (dues_at order.now moment)) }
{
    for slot in order {
        if is_due(moment, slot) {
            if dues.len() == MOST_ENTRIES {
                return Err(PlanFault::TooLong);
            }
            let task = TaskRef {
                resource: slot.resource,
                task: slot.task,
            };
            dues.push(Due { moment, task })?;
        }
    }
    Ok(())
}

/// What is due up to and with `until`, where the tasks stand in order.
fn dues_until(alloc: Global, order: &[Slot], until: u32) -> Result<Vec<Due>, PlanFault>
    requires { HaveIntervals order.now }
    ensures ok { IfOk result (λ dues. (dues.items ≡ dues_until order.now until) × (length dues.items ≤ 100000)) }
    ensures too_long { IfErr result (λ fault. fault ≡ TooLong → 100000 < length (dues_until order.now until)) }
{
    let end = u64::from(until) + 1;
    let mut dues = Vec::new(alloc);
    let mut moment = first_after(order, 0, end);
    'moments: while moment < end {
        push_dues(&mut dues, order, moment as u32)?;
        moment = first_after(order, moment as u32, end);
    }
    Ok(dues)
}

/// The plan up to and with `until` (in ms) of the tasks of each resource: all pairs of a task and a positive multiple of its interval, by moment, priority, resource and task.
/// `TooLong` comes exactly where they are more than 100,000.
pub fn plan(alloc: Global, tasks: &[Vec<Timing>], until: u32) -> Result<Vec<Due>, PlanFault>
    requires { All AllTimed (timings_in tasks.now) }
    ensures ok { IfOk result (λ dues. IsShortPlanOf (timings_in tasks.now) until dues.items) }
    ensures too_long { IfErr result (λ fault. fault ≡ TooLong → HasLongPlan (timings_in tasks.now) until) }
{
    let mut order = slots(alloc, tasks)?;
    order.sort_unstable();
    dues_until(alloc, &order, until)
}
