ghost use Rattle.std.specs.Prelude.{◌≡◌, IfOk, IfErr};
ghost use Rattle.text_commands.specs.PlanText.{RefusesPlanOf};
ghost use Rattle.node_reports.specs.Commands.{AreNumbered, AreForPlant};
ghost use Rattle.run_texts.specs.RunCommands.{command_for, commands_from, IsPlannedRun};

use crate::run_plan::PlannedRun;
use evaluation::Inputs;
use node_reports::{Act, Command};
use plant::Plant;
use std::alloc::{AllocError, Global};
use task_codes::Due;
use text_commands::{TextCommandFault, interval_of, plan_of};

/// The command for an entry of the plan.
fn command_for(plant: &Plant, inputs: &Inputs, ticket: u64, due: Due) -> Result<Command, AllocError>
    ensures { IfOk result (λ command. command ≡ command_for plant.now inputs.now ticket due) }
{
    Ok(Command {
        ticket,
        resource: due.task.resource,
        act: Act::Evaluate {
            task: due.task.task,
            dt: interval_of(plant, due.task),
            inputs: inputs.try_copy()?,
        },
    })
}

/// A command for each entry of the plan, in order. Its ticket is its place, counted from 1.
fn commands_of(
    alloc: Global,
    plant: &Plant,
    inputs: &Inputs,
    dues: &[Due],
) -> Result<Vec<Command>, AllocError>
    ensures { IfOk result (λ commands. commands.items ≡ commands_from plant.now inputs.now 1 dues.now) }
{
    let mut commands = Vec::with_capacity(alloc, dues.len())?;
    for i in 0..dues.len() {
        let ticket = (i + 1) as u64;
        commands.push(command_for(plant, inputs, ticket, dues[i])?)?;
    }
    Ok(commands)
}

/// The entries of a plan, and the commands for them.
fn run_until(
    alloc: Global,
    plant: &Plant,
    until: u32,
    inputs: &Inputs,
) -> Result<PlannedRun, TextCommandFault>
    ensures ok { IfOk result (IsPlannedRun plant.now until inputs.now) }
    ensures fault { IfErr result (RefusesPlanOf plant.now until) }
{
    let dues = plan_of(alloc, plant, until)?;
    let commands = commands_of(alloc, plant, inputs, &dues)?;
    Ok(PlannedRun { dues, commands })
}

/// The plan of a plant up to and with `until` (in ms), and a command for each of its entries, with these field inputs.
/// They are numbered, and for resources of the plant.
pub fn planned_run(
    alloc: Global,
    plant: &Plant,
    until: u32,
    inputs: &Inputs,
) -> Result<PlannedRun, TextCommandFault>
    ensures ok { IfOk result (IsPlannedRun plant.now until inputs.now) }
    ensures numbered { IfOk result (λ run. AreNumbered run.commands.items) }
    ensures resources { IfOk result (λ run. AreForPlant plant.now run.commands.items) }
    ensures fault { IfErr result (RefusesPlanOf plant.now until) }
{
    run_until(alloc, plant, until, inputs)
}
