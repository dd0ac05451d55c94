use crate::gate::Gate;
use crate::threads::desk::Desk;
use crate::threads::inbox::Inbox;
use crate::threads::noted::Noted;
use crate::threads::of_plant::OfPlant;
use crossbeam_channel::Sender;
use node_reports::{Cause, Command};
use std::sync::Wait;
use std::thread;

/// Tells a resource the place of a command. It answers whether that is done.
fn send_place<R: Wait>(rt: &R, doors: &[Sender<Inbox>], resource: usize, place: usize) -> bool {
    match doors.get(resource) {
        Some(door) => door.send(rt, Inbox::Command(place)).is_ok(),
        None => false,
    }
}

/// Issues the command that stands at a place.
fn issue<R: Wait, G: Gate, P: OfPlant>(
    rt: &R,
    desk: &Desk<'_, G, P>,
    place: usize,
    command: &Command,
) -> Result<(), Cause> {
    if desk.gate.issue(command.ticket).is_err() {
        return Err(Cause::OutOfTurns);
    }
    if send_place(rt, desk.doors, command.resource, place) {
        Ok(())
    } else {
        Err(Cause::NotSent)
    }
}

/// Issues the commands in their order. A command that isn't sent is done with.
pub(crate) fn issue_all<R: Wait, G: Gate, P: OfPlant>(
    rt: &R,
    desk: &Desk<'_, G, P>,
    noted: &mut Noted,
) {
    for (place, command) in desk.commands.iter().enumerate() {
        if let Err(cause) = issue(rt, desk, place, command) {
            noted.note(command.resource, command.ticket, cause);
            if desk.gate.sent(command.resource, command.ticket).is_err() {
                noted.note(command.resource, command.ticket, Cause::OutOfTurns);
            }
        }
    }
}

/// Sends Stop to each thread, until it is taken.
pub(crate) fn stop_all<R: Wait>(rt: &R, doors: &[Sender<Inbox>]) {
    for door in doors {
        for _ in rt.forever() {
            if door.send(rt, Inbox::Stop).is_ok() {
                break;
            }
            thread::yield_now();
        }
    }
}
