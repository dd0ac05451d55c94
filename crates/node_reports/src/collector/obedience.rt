ghost use Rattle.std.specs.Prelude.{◌≡◌, ◌↔◌, IsTrue, MatchOption, Contains};
ghost use Rattle.std.specs.List.Sorted.{IsStrictlyIncreasing};
ghost use Rattle.node_reports.specs.declared.act.Act.TheVariants.{Restart};
ghost use Rattle.node_reports.specs.Commands.{AreNumbered};
ghost use Rattle.node_reports.specs.Reports.{command_of, IsCommanded, ticket_of, tickets_of};
ghost use Rattle.node_reports.specs.Steps.Collecting.{IsNoTicket, IsOfTicket};

use crate::act::Act;
use crate::command::Command;
use crate::step::Step;
use crate::tickets::is_above;
use evaluation::{Evaluation, Frame};

/// The command of a ticket.
pub(crate) fn find_command(commands: &[Command], ticket: u64) -> Option<&Command>
    requires { AreNumbered commands.now }
    ensures { MatchOption result (IsNoTicket commands.now ticket) (λ c. IsOfTicket commands.now ticket c.now) }
{
    if ticket == 0 {
        return None;
    }
    match usize::try_from(ticket - 1) {
        Ok(place) => commands.get(place),
        Err(_) => None,
    }
}

/// Whether an evaluation is what the command asks for.
fn asks_for(command: &Command, evaluation: &Evaluation) -> bool
    ensures { IsTrue result ↔ (command.now ≡ command_of evaluation.now) }
{
    let asked = evaluation.name().task;
    match &command.act {
        Act::Evaluate { task, dt, inputs } => {
            command.ticket == evaluation.ticket()
                && command.resource == asked.resource
                && *task == asked.task
                && *dt == evaluation.dt()
                && inputs.same(evaluation.inputs())
        }
        Act::Restart => false,
    }
}

/// Whether an evaluation answers a command.
pub(crate) fn is_answer(commands: &[Command], frame: &Frame) -> bool
    requires { AreNumbered commands.now }
    ensures { IsTrue result ↔ Contains commands.now (command_of frame.now) }
{
    let evaluation = frame.evaluation();
    match find_command(commands, evaluation.ticket()) {
        Some(command) => asks_for(command, evaluation),
        None => false,
    }
}

/// Whether a command asks a resource to restart.
fn asks_to_restart(command: &Command, ticket: u64, resource: usize) -> bool
    ensures { IsTrue result ↔ (command.now ≡ record { ticket = ticket; resource = resource; act = Restart }) }
{
    match &command.act {
        Act::Evaluate { .. } => false,
        Act::Restart => command.ticket == ticket && command.resource == resource,
    }
}

/// Whether a step, where it is a restart, answers a command.
pub(crate) fn is_commanded(commands: &[Command], resource: usize, step: &Step) -> bool
    requires { AreNumbered commands.now }
    ensures { IsTrue result ↔ IsCommanded commands.now resource step.now }
{
    match step {
        Step::Took(_) | Step::Made(_) | Step::Heard { .. } => true,
        Step::Restarted { ticket, .. } => match find_command(commands, *ticket) {
            Some(command) => asks_to_restart(command, *ticket, resource),
            None => false,
        },
    }
}

/// The ticket of an evaluation made or of a restart.
fn ticket(step: &Step) -> Option<u64>
    ensures { result ≡ ticket_of step.now }
{
    match step {
        Step::Took(_) | Step::Heard { .. } => None,
        Step::Made(frame) => Some(frame.evaluation().ticket()),
        Step::Restarted { ticket, .. } => Some(*ticket),
    }
}

/// Whether the tickets rise.
pub(crate) fn is_rising(steps: &[Step]) -> bool
    ensures { IsTrue result ↔ IsStrictlyIncreasing (tickets_of steps.now) }
{
    let mut last = None;
    for k in 0..steps.len() {
        match ticket(&steps[k]) {
            None => {}
            Some(next) => {
                if !is_above(next, last) {
                    return false;
                }
                last = Some(next);
            }
        }
    }
    true
}
