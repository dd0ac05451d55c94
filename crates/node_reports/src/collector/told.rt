ghost use Rattle.std.specs.Prelude.{◌≡◌, ◌↔◌, ◌-◌, false, length, slice_index_or, IsTrue, IfOk, IfErr, Contains};
ghost use Rattle.std.specs.List.{list_any};
ghost use Rattle.std.specs.List.Sorted.{IsStrictlyIncreasing};
ghost use Rattle.node_reports.specs.declared.act.Act.TheVariants.{Restart};
ghost use Rattle.node_reports.specs.declared.cause.Cause.TheVariants.{Keeper};
ghost use Rattle.node_reports.specs.Commands.{AreNumbered, AreForPlant};
ghost use Rattle.node_reports.specs.Reports.{is_restart_of, HasTask, LacksTask, KeepsRetained, MayMeet, AllTold, AreTold, AreByTicket};
ghost use Rattle.node_reports.specs.Steps.Collecting.{AreMarkedAlso, AreRestartMarks, HasMark, TellsUnobeyed, TellsTold, IsToldFault};

use crate::act::Act;
use crate::cause::Cause;
use crate::collector::obedience::find_command;
use crate::collector::stops::are_stops_told;
use crate::collector::unanswered::mark;
use crate::command::Command;
use crate::journal::Journal;
use crate::node_fault::NodeFault;
use crate::node_faults::NodeFaults;
use crate::run_fault::RunFault;
use crate::step::Step;
use plant::Plant;
use std::alloc::{AllocError, Global};
use task_codes::TaskRef;

/// Marks the place of the ticket of a restart.
fn mark_restart(marks: &mut [bool], step: &Step)
    ensures { AreMarkedAlso (λ n. is_restart_of n step.now) marks.old marks.new }
{
    match step {
        Step::Took(_) | Step::Made(_) | Step::Heard { .. } => {}
        Step::Restarted { ticket, .. } => mark(marks, *ticket),
    }
}

/// Marks the places of the tickets of restarts.
fn mark_restarts(marks: &mut [bool], steps: &[Step])
    ensures { AreMarkedAlso (λ n. list_any (is_restart_of n) steps.now) marks.old marks.new }
{
    for i in 0..steps.len() {
        mark_restart(marks, &steps[i]);
    }
}

/// For each place, whether a journal has a restart of its ticket. The ticket of a place is one more than the place.
fn restart_marks(alloc: Global, count: usize, journals: &[Journal]) -> Result<Vec<bool>, AllocError>
    ensures marks { IfOk result (λ v. AreRestartMarks journals.now v.items) }
    ensures many { IfOk result (λ v. length v.items ≡ count) }
{
    let mut marks = vec![in alloc; false; count]?;
    for i in 0..journals.len() {
        mark_restarts(marks.as_mut_slice(), journals[i].steps.as_slice());
    }
    Ok(marks)
}

/// Whether no mark stands at the place of a ticket.
fn is_unmarked(marks: &[bool], ticket: u64) -> bool
    requires { HasMark marks.now ticket }
    ensures { IsTrue result ↔ (slice_index_or marks.now (ticket - 1) false ≡ false) }
{
    !marks[(ticket - 1) as usize]
}

/// Whether a ticket is among these, which rise.
fn is_among(tickets: &[u64], ticket: u64) -> bool
    requires { IsStrictlyIncreasing tickets.now }
    ensures { IsTrue result ↔ Contains tickets.now ticket }
{
    tickets.binary_search(&ticket).is_ok()
}

/// Whether a command wasn't obeyed.
fn is_unobeyed(command: &Command, unanswered: &[u64], restarts: &[bool]) -> bool
    requires rising { IsStrictlyIncreasing unanswered.now }
    requires place { HasMark restarts.now command.now.ticket }
    ensures { TellsUnobeyed restarts.now unanswered.now command.now result }
{
    match &command.act {
        Act::Evaluate { .. } => is_among(unanswered, command.ticket),
        Act::Restart => is_unmarked(restarts, command.ticket),
    }
}

/// Whether a command asks to evaluate a task that its resource has.
fn has_task(plant: &Plant, command: &Command) -> bool
    ensures { IsTrue result ↔ HasTask plant.now command.now }
{
    match &command.act {
        Act::Evaluate { task, .. } => *task < plant.tasks(command.resource).len(),
        Act::Restart => false,
    }
}

/// Whether a command asks to evaluate a task that its resource hasn't.
fn lacks_task(plant: &Plant, command: &Command) -> bool
    ensures { IsTrue result ↔ LacksTask plant.now command.now }
{
    match &command.act {
        Act::Evaluate { task, .. } => *task >= plant.tasks(command.resource).len(),
        Act::Restart => false,
    }
}

/// Whether a command asks to evaluate a task that has retained variables.
fn keeps_retained(plant: &Plant, command: &Command) -> bool
    ensures { IsTrue result ↔ KeepsRetained plant.now command.now }
{
    match &command.act {
        Act::Evaluate { task, .. } => {
            let task = TaskRef {
                resource: command.resource,
                task: *task,
            };
            match plant.code(task) {
                Some(code) => !code.retained().is_empty(),
                None => false,
            }
        }
        Act::Restart => false,
    }
}

/// Whether a keeper may refuse a command: a restart that wasn't obeyed, or an evaluation that stands and has something
/// to keep.
fn may_be_unkept(plant: &Plant, command: &Command, is_unobeyed: bool) -> bool
    ensures { IsTrue result ↔ MayMeet plant.now command.now (IsTrue is_unobeyed) Keeper }
{
    if is_unobeyed {
        is_restart(command)
    } else {
        keeps_retained(plant, command)
    }
}

/// Whether a command asks to restart.
fn is_restart(command: &Command) -> bool
    ensures { IsTrue result ↔ (command.now.act ≡ Restart) }
{
    match &command.act {
        Act::Evaluate { .. } => false,
        Act::Restart => true,
    }
}

/// Whether a command may have met a cause, if this tells that it wasn't obeyed.
fn may_meet(plant: &Plant, command: &Command, is_unobeyed: bool, cause: Cause) -> bool
    ensures { IsTrue result ↔ MayMeet plant.now command.now (IsTrue is_unobeyed) cause }
{
    match cause {
        Cause::OutOfTurns => true,
        Cause::NoSuchTask => is_unobeyed && lacks_task(plant, command),
        Cause::NumbersSpent | Cause::Misfit => is_unobeyed && has_task(plant, command),
        Cause::Memory => is_unobeyed || keeps_retained(plant, command),
        Cause::Keeper => may_be_unkept(plant, command, is_unobeyed),
        Cause::Stopped => is_unobeyed,
        Cause::NotSent => true,
    }
}

/// Whether a command is of a fault's resource, and may have met its cause, if this tells that it wasn't obeyed.
fn may_meet_there(plant: &Plant, command: &Command, is_unobeyed: bool, fault: &NodeFault) -> bool
    ensures { IsTrue result
        ↔ ((command.now.resource ≡ fault.now.resource) × MayMeet plant.now command.now (IsTrue is_unobeyed) fault.now.cause) }
{
    command.resource == fault.resource && may_meet(plant, command, is_unobeyed, fault.cause)
}

/// Whether a fault is told of a command.
fn is_told(
    plant: &Plant,
    commands: &[Command],
    unanswered: &[u64],
    restarts: &[bool],
    fault: &NodeFault,
) -> bool
    requires numbered { AreNumbered commands.now }
    requires rising { IsStrictlyIncreasing unanswered.now }
    requires marks { length restarts.now ≡ length commands.now }
    ensures { TellsTold restarts.now plant.now commands.now unanswered.now fault.now result }
{
    match find_command(commands, fault.ticket) {
        Some(command) => {
            let is_unobeyed = is_unobeyed(command, unanswered, restarts);
            may_meet_there(plant, command, is_unobeyed, fault)
        }
        None => false,
    }
}

/// Whether each fault is told of a command.
fn are_told(
    alloc: Global,
    plant: &Plant,
    commands: &[Command],
    journals: &[Journal],
    unanswered: &[u64],
    faults: &[NodeFault],
) -> Result<bool, AllocError>
    requires numbered { AreNumbered commands.now }
    requires rising { IsStrictlyIncreasing unanswered.now }
    ensures { IfOk result (λ all. IsTrue all ↔ AllTold plant.now commands.now journals.now unanswered.now faults.now) }
{
    if faults.is_empty() {
        return Ok(true);
    }
    let restarts = restart_marks(alloc, commands.len(), journals)?;
    for k in 0..faults.len() {
        if !is_told(plant, commands, unanswered, restarts.as_slice(), &faults[k]) {
            return Ok(false);
        }
    }
    Ok(true)
}

/// The faults noted by ticket, if each is told of a command.
pub(crate) fn told_faults(
    alloc: Global,
    plant: &Plant,
    commands: &[Command],
    journals: &[Journal],
    unanswered: &[u64],
    noted: Vec<NodeFault>,
) -> Result<NodeFaults, RunFault>
    requires numbered { AreNumbered commands.now }
    requires resources { AreForPlant plant.now commands.now }
    requires rising { IsStrictlyIncreasing unanswered.now }
    ensures told { IfOk result (λ faults. AreTold plant.now commands.now journals.now unanswered.now faults) }
    ensures noted { IfOk result (λ faults. AreByTicket noted.items faults) }
    ensures fault { IfErr result (IsToldFault plant.now commands.now journals.now unanswered.now noted.items) }
{
    let faults = NodeFaults::of(alloc, noted)?;
    let told = are_told(
        alloc,
        plant,
        commands,
        journals,
        unanswered,
        faults.as_slice(),
    )?;
    if !told {
        return Err(RunFault::Stranger);
    }
    let stops_told = are_stops_told(alloc, plant.resources(), faults.as_slice())?;
    if !stops_told {
        return Err(RunFault::Stranger);
    }
    Ok(faults)
}
