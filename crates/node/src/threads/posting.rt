use crate::gate::Gate;
use crate::threads::desk::Desk;
use crate::threads::hello::Hello;
use crate::threads::inbox::Inbox;
use crate::threads::of_plant::OfPlant;
use crossbeam_channel::Sender;
use evaluation::Frame;
use plant::Plant;
use std::sync::Wait;
use task_codes::TaskRef;

/// Whether some task of a resource takes from a task.
fn takes(plant: &Plant, resource: usize, producer: TaskRef) -> bool {
    for task in 0..plant.tasks(resource).len() {
        for found in plant.producers(TaskRef { resource, task }) {
            if *found == producer {
                return true;
            }
        }
    }
    false
}

/// Sends a copy of an evaluation. It answers whether that is done.
fn send_copy<R: Wait>(rt: &R, door: &Sender<Inbox>, frame: &Frame) -> bool {
    match frame.try_clone() {
        Ok(copy) => door.send(rt, Inbox::Frame(copy)).is_ok(),
        Err(_) => false,
    }
}

/// Sends an evaluation to each other resource that takes from its task. It answers whether each was sent it.
pub(crate) fn post<R: Wait, G: Gate, P: OfPlant>(
    rt: &R,
    desk: &Desk<'_, G, P>,
    frame: &Frame,
) -> bool {
    let task = frame.name().task;
    let mut all = true;
    for (resource, door) in desk.doors.iter().enumerate() {
        if resource != task.resource && takes(desk.plant, resource, task) {
            if !send_copy(rt, door, frame) {
                all = false;
            }
        }
    }
    all
}

/// Whether some task of a resource takes from a task of another one.
fn takes_from(plant: &Plant, resource: usize, other: usize) -> bool {
    for place in 0..plant.tasks(resource).len() {
        let task = TaskRef {
            resource,
            task: place,
        };
        for producer in plant.producers(task) {
            if producer.resource == other {
                return true;
            }
        }
    }
    false
}

/// Tells each other resource from which one takes, or that takes from it, in which incarnation it is. It answers whether each was told.
pub(crate) fn greet<R: Wait, G: Gate, P: OfPlant>(
    rt: &R,
    desk: &Desk<'_, G, P>,
    hello: Hello,
) -> bool {
    let mut all = true;
    for (resource, door) in desk.doors.iter().enumerate() {
        let is_told = takes_from(desk.plant, resource, hello.resource)
            || takes_from(desk.plant, hello.resource, resource);
        if resource != hello.resource && is_told {
            if door.send(rt, Inbox::Hello(hello)).is_err() {
                all = false;
            }
        }
    }
    all
}

/// Answers a resource from which one takes by one's own incarnation. An answer that isn't sent is lost.
pub(crate) fn greet_back<R: Wait, G: Gate, P: OfPlant>(
    rt: &R,
    desk: &Desk<'_, G, P>,
    hello: Hello,
    to: usize,
) {
    if takes_from(desk.plant, hello.resource, to) {
        if let Some(door) = desk.doors.get(to) {
            let _sent = door.send(rt, Inbox::Hello(hello));
        }
    }
}
