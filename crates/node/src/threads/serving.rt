ghost use Rattle.std.specs.Prelude.{◌≡◌};
ghost use Rattle.node_reports.specs.Journals.{IsLawful};
ghost use Rattle.node.specs.Steps.Keeping.{IsLeftKept};

use crate::gate::Gate;
use crate::threads::desk::Desk;
use crate::threads::ended::Ended;
use crate::threads::entered::Entered;
use crate::threads::hello::Hello;
use crate::threads::inbox::Inbox;
use crate::threads::of_plant::OfPlant;
use crate::threads::posting::{greet, greet_back, post};
use crate::threads::room::make_ready;
use crate::threads::worker::Worker;
use crossbeam_channel::Receiver;
use keepers::Keeper;
use node_reports::{Act, Cause, Command};
use std::alloc::Global;
use std::sync::Wait;

/// Serves an inbox until Stop.
pub(crate) fn serve<R: Wait, K: Keeper, G: Gate, P: OfPlant>(
    rt: &R,
    alloc: Global,
    desk: Desk<'_, G, P>,
    inbox: &Receiver<Inbox>,
    worker: Worker<K>,
) -> Ended<K>
    requires { worker.plant ≡ P.plant }
    ensures lawful { IsLawful worker.plant worker.firsts worker.max_number result.journal }
    ensures first { result.journal.first ≡ worker.first }
    ensures opening { result.journal.opening ≡ worker.opening }
    ensures keeps { IsLeftKept K.last K.kept_gives worker.plant result }
{
    // There is room for one fault of each command.
    make_ready(alloc, worker.room());
    let mut worker = worker;
    for _ in rt.forever() {
        match inbox.recv(rt) {
            Ok(Inbox::Frame(frame)) => worker = worker.receive(frame),
            Ok(Inbox::Hello(hello)) => worker = hear(rt, &desk, worker, hello),
            Ok(Inbox::Command(place)) => {
                if let Some(command) = desk.commands.get(place) {
                    worker = answer(rt, alloc, &desk, worker, command);
                }
            }
            Ok(Inbox::Stop) | Err(_) => break,
        }
    }
    worker.into_ended()
}

/// Hears in which incarnation another resource is. Where that is news of one from which it takes, it says in which it is itself.
fn hear<R: Wait, K: Keeper, G: Gate, P: OfPlant>(
    rt: &R,
    desk: &Desk<'_, G, P>,
    worker: Worker<K>,
    hello: Hello,
) -> Worker<K>
    ensures { result ≡ worker }
{
    let (worker, is_news) = worker.hear(hello);
    if is_news {
        if let Some(own) = worker.hello() {
            greet_back(rt, desk, own, hello.resource);
        }
    }
    worker
}

/// Obeys a command if the resource isn't stopped, and says that it is done with.
fn answer<R: Wait, K: Keeper, G: Gate, P: OfPlant>(
    rt: &R,
    alloc: Global,
    desk: &Desk<'_, G, P>,
    worker: Worker<K>,
    command: &Command,
) -> Worker<K>
    requires { worker.plant ≡ P.plant }
    ensures { result ≡ worker }
{
    let (mut worker, outcome) = if worker.is_stopped() {
        (worker, Err(Cause::Stopped))
    } else if desk.gate.pass(command.resource, command.ticket).is_err() {
        (worker, Err(Cause::OutOfTurns))
    } else {
        obey(rt, alloc, desk, worker, command)
    };
    if let Err(cause) = outcome {
        worker.note(command.resource, command.ticket, cause);
    }
    if desk.gate.sent(command.resource, command.ticket).is_err() {
        worker.note(command.resource, command.ticket, Cause::OutOfTurns);
    }
    worker
}

/// Tells those who have to know that the resource restarted.
fn tell_restart<R: Wait, K: Keeper, G: Gate, P: OfPlant>(
    rt: &R,
    desk: &Desk<'_, G, P>,
    worker: &Worker<K>,
) -> Result<(), Cause> {
    match worker.hello() {
        Some(hello) => {
            if greet(rt, desk, hello) {
                Ok(())
            } else {
                Err(Cause::NotSent)
            }
        }
        None => Ok(()),
    }
}

/// Sends an evaluation that was entered, also where its task's retained variables aren't kept.
fn send<R: Wait, G: Gate, P: OfPlant>(
    rt: &R,
    desk: &Desk<'_, G, P>,
    entered: Entered,
) -> Result<(), Cause> {
    let is_sent = match &entered.frame {
        Some(frame) => post(rt, desk, frame),
        None => false,
    };
    if is_sent { Ok(()) } else { Err(Cause::NotSent) }
}

/// Obeys a command. An evaluation that was made is sent once it is entered, and a restart is told.
fn obey<R: Wait, K: Keeper, G: Gate, P: OfPlant>(
    rt: &R,
    alloc: Global,
    desk: &Desk<'_, G, P>,
    worker: Worker<K>,
    command: &Command,
) -> (Worker<K>, Result<(), Cause>)
    requires { worker.plant ≡ P.plant }
    ensures { result.0 ≡ worker }
{
    match &command.act {
        Act::Restart => {
            let (worker, restarted) = worker.restart(alloc, command.ticket);
            let outcome = match restarted {
                Ok(()) => tell_restart(rt, desk, &worker),
                Err(cause) => Err(cause),
            };
            (worker, outcome)
        }
        Act::Evaluate { task, dt, inputs } => {
            let (worker, made) = worker.evaluate(
                rt,
                alloc,
                desk.book,
                command.ticket,
                *task,
                *dt,
                inputs,
            );
            let outcome = match made {
                Ok(entered) => send(rt, desk, entered),
                Err(cause) => Err(cause),
            };
            (worker, outcome)
        }
    }
}
