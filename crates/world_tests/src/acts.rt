//! Events in short: what is done of which task, or at which resource.

use crate::checks::must;
use evaluation::Inputs;
use plant::TaskRef;
use std::alloc::Global;
use std::process::Abort;
use world::Event;

/// The only task of the first resource, and of the second one.
pub const FAST: TaskRef = TaskRef {
    resource: 0,
    task: 0,
};

pub const SLOW: TaskRef = TaskRef {
    resource: 1,
    task: 0,
};

/// What an event does.
#[derive(Clone, Copy)]
pub enum Act {
    /// This task is evaluated, its input on or off.
    Evaluate(TaskRef, bool),
    /// This message reaches this resource.
    Deliver(u64, usize),
    /// This resource restarts.
    Restart(usize),
    /// This resource hears that another one is in this incarnation.
    Hear(usize, usize, u32),
}

/// The event of an act, under this ticket where it is an evaluation.
fn event_of(rt: &impl Abort, alloc: Global, ticket: u64, act: Act) -> Event {
    match act {
        Act::Evaluate(task, is_on) => Event::Evaluate {
            ticket,
            task,
            dt: 10,
            inputs: must(rt, Inputs::read(alloc, if is_on { "%IX0=1" } else { "" })),
        },
        Act::Deliver(message, resource) => Event::Deliver { message, resource },
        Act::Restart(resource) => Event::Restart { resource },
        Act::Hear(resource, of, incarnation) => Event::Hear {
            resource,
            of,
            incarnation,
        },
    }
}

/// The events of these acts, all evaluations under one ticket.
pub fn events_of(rt: &impl Abort, alloc: Global, acts: &[Act]) -> Vec<Event> {
    let mut events = Vec::new(alloc);
    for act in acts {
        must(rt, events.push(event_of(rt, alloc, 9, *act)));
    }
    events
}

/// The next number that looks drawn by lot, below 2^24.
fn next(seed: &mut u32) -> u32 {
    *seed = seed.wrapping_mul(1_664_525).wrapping_add(1_013_904_223);
    *seed >> 8
}

/// 4 to 19 events drawn by lot for a plant of so many resources: half of them evaluations, one in eight a restart, one in eight a hearing of an incarnation from 2 to 7. Some are not lawful.
pub fn drawn_events(
    rt: &impl Abort,
    alloc: Global,
    seed: &mut u32,
    resources: usize,
) -> Vec<Event> {
    let mut events = Vec::new(alloc);
    for ticket in 0..4 + next(seed) % 16 {
        let resource = (next(seed) as usize).checked_rem(resources).unwrap_or(0);
        let act = match next(seed) % 8 {
            0 => Act::Restart(resource),
            1 => {
                let of = (next(seed) as usize).checked_rem(resources).unwrap_or(0);
                Act::Hear(resource, of, 2 + next(seed) % 6)
            }
            2..=3 => Act::Deliver(1 + u64::from(next(seed) % 9), resource),
            _ => Act::Evaluate(TaskRef { resource, task: 0 }, next(seed) % 2 == 1),
        };
        must(rt, events.push(event_of(rt, alloc, u64::from(ticket), act)));
    }
    events
}

/// Both do the same; evaluations have one ticket, one time and the same inputs.
fn is_same(event: &Event, other: &Event) -> bool {
    match (event, other) {
        (
            Event::Evaluate {
                ticket,
                task,
                dt,
                inputs,
            },
            Event::Evaluate {
                ticket: other_ticket,
                task: other_task,
                dt: other_dt,
                inputs: other_inputs,
            },
        ) => {
            (ticket, task, dt) == (other_ticket, other_task, other_dt) && inputs.same(other_inputs)
        }
        (
            Event::Deliver { message, resource },
            Event::Deliver {
                message: other_message,
                resource: other_resource,
            },
        ) => (message, resource) == (other_message, other_resource),
        (Event::Restart { resource }, Event::Restart { resource: other }) => resource == other,
        (
            Event::Hear {
                resource,
                of,
                incarnation,
            },
            Event::Hear {
                resource: other_resource,
                of: other_of,
                incarnation: other_incarnation,
            },
        ) => (resource, of, incarnation) == (other_resource, other_of, other_incarnation),
        _ => false,
    }
}

/// The events are the same, one by one.
pub fn do_the_same(events: &[Event], others: &[Event]) -> bool {
    events.len() == others.len()
        && events
            .iter()
            .zip(others)
            .all(|(event, other)| is_same(event, other))
}
