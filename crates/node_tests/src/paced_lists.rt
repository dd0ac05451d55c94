//! Lists of commands drawn by lot. Obeyed one after the other, they make what one thread makes.

use crate::checks::{equal, holds, must};
use crate::drawn::{drawn_asks, ring};
use crate::runs::{commands_of, keepers_of, plant_of, run_on, world_of};
use node::{Act, Command, PacedGate};
use plant::{Plant, TaskRef};
use std::alloc::Global;
use std::process::Abort;
use std::sync::Arc;
use worked_texts::PAIR;
use world::{Event, World, initial_openings};

const TURNS: u64 = 10_000_000;

/// The event of a command, which is none of a restart.
fn event_of(rt: &impl Abort, command: &Command) -> Event {
    let Act::Evaluate { task, dt, inputs } = &command.act else {
        panic!(rt; "a restart");
    };
    let task = TaskRef {
        resource: command.resource,
        task: *task,
    };
    Event::Evaluate {
        ticket: command.ticket,
        task,
        dt: *dt,
        inputs: must(rt, inputs.try_copy()),
    }
}

/// The events of these commands: each evaluation reaches every other resource before the next command.
fn events_of(rt: &impl Abort, alloc: Global, commands: &[Command], resources: usize) -> Vec<Event> {
    let mut events = Vec::new(alloc);
    for command in commands {
        must(rt, events.push(event_of(rt, command)));
        for resource in 0..resources {
            if resource != command.resource {
                let message = command.ticket;
                must(rt, events.push(Event::Deliver { message, resource }));
            }
        }
    }
    events
}

/// The world after these commands, obeyed one after the other.
fn world_after(rt: &impl Abort, alloc: Global, plant: &Arc<Plant>, commands: &[Command]) -> World {
    let first = must(rt, vec![in alloc; 1; plant.resources()]);
    let opening = must(rt, initial_openings(alloc, plant));
    let events = events_of(rt, alloc, commands, plant.resources());
    world_of(
        rt,
        alloc,
        plant,
        first.as_slice(),
        opening.as_slice(),
        u32::MAX,
        events.as_slice(),
    )
}

/// A hundred lists for each of two plants. The book has the world's evaluations, and with these no command is unanswered.
#[test]
fn paced_lists_make_what_one_thread_makes(rt: HostRuntime) {
    let alloc = rt.alloc();
    let ring = ring(&rt, alloc, 3);
    for &text in &[PAIR, ring.as_str()] {
        let plant = plant_of(&rt, alloc, text);
        let mut seed = 20_261_123;
        for _list in 0..100 {
            let asks = drawn_asks(&rt, alloc, &mut seed, plant.resources(), 0);
            let commands = commands_of(&rt, alloc, asks.as_slice());
            let commands = commands.as_slice();
            let keepers = keepers_of(&rt, alloc, plant.resources(), 0);
            let gate = PacedGate::new(TURNS);
            let report = run_on(&rt, alloc, &plant, commands, keepers, &gate, u32::MAX);
            let world = world_after(&rt, alloc, &plant, commands);
            let entries = report.book.entries();
            let counts = (entries.len(), report.node_faults.as_slice().len());
            equal(&rt, "entries, faults", &counts, &(world.log().len(), 0));
            for (entry, made) in entries.iter().zip(world.log()) {
                holds(&rt, "the entry is the evaluation", entry.same(made));
            }
        }
    }
}
