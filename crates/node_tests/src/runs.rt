//! Runs of threads, most of them on a counter and its watcher, and what their reports have.

use crate::checks::{equal, holds, must};
use evaluation::{Frame, Inputs, Retained};
use node::{
    Act, Cause, Command, Gate, Keeper, MemoryKeeper, Report, are_for_plant, are_numbered,
    run_threads, run_with_keepers,
};
use plant::Plant;
use std::alloc::Global;
use std::process::Abort;
use std::sync::{Arc, Wait};
use std::thread::Threads;
use std_blocks::Value;
use worked_texts::PAIR;
use world::{Event, Schedule, World, are_openings};

/// What a command asks for.
#[derive(Clone, Copy, Debug, PartialEq, Eq)]
pub enum Ask {
    /// The task at a place of a resource is evaluated, its input on or off.
    Evaluate(usize, usize, bool),
    Restart(usize),
}

/// An entry of a report's book: its resource, its pair of incarnation and number, what it took, and its first value.
pub type Entry = (usize, (u32, u32), Option<(u32, u32)>, Option<Value>);

/// What is told of a run: its entries, the tickets without one, the faults by resource, ticket and cause, and the kinds of the schedule's events.
#[derive(Clone, Copy)]
pub struct Told {
    pub entries: &'static [Entry],
    pub unanswered: &'static [u64],
    pub faults: &'static [(usize, u64, Cause)],
    pub kinds: &'static str,
}

pub fn plant_of(rt: &impl Abort, alloc: Global, text: &str) -> Arc<Plant> {
    let plant = must(rt, Plant::read(alloc, text));
    must(rt, Arc::new(alloc, plant))
}

pub fn pair(rt: &impl Abort, alloc: Global) -> Arc<Plant> {
    plant_of(rt, alloc, PAIR)
}

/// So many keepers.
pub fn keepers_of(rt: &impl Abort, alloc: Global, count: usize, last: u32) -> Vec<MemoryKeeper> {
    let mut keepers = Vec::new(alloc);
    for _resource in 0..count {
        must(rt, keepers.push(MemoryKeeper::new(alloc, last)));
    }
    keepers
}

fn command_of(rt: &impl Abort, alloc: Global, ticket: u64, ask: Ask) -> Command {
    let (resource, act) = match ask {
        Ask::Evaluate(resource, task, is_on) => {
            let read = Inputs::read(alloc, if is_on { "%IX0=1" } else { "" });
            let inputs = must(rt, read);
            let dt = 10;
            (resource, Act::Evaluate { task, dt, inputs })
        }
        Ask::Restart(resource) => (resource, Act::Restart),
    };
    Command {
        ticket,
        resource,
        act,
    }
}

pub fn commands_of(rt: &impl Abort, alloc: Global, asks: &[Ask]) -> Vec<Command> {
    let mut commands = Vec::new(alloc);
    for (place, ask) in asks.iter().enumerate() {
        let command = command_of(rt, alloc, place as u64 + 1, *ask);
        must(rt, commands.push(command));
    }
    commands
}

/// The report of a run of these commands on a plant.
pub fn run_on<R: Threads + Wait + Sync + Abort, K: Keeper, G: Gate>(
    rt: &R,
    alloc: Global,
    plant: &Arc<Plant>,
    commands: &[Command],
    keepers: Vec<K>,
    gate: &G,
    max_number: u32,
) -> Report {
    let shared = must(rt, Arc::try_clone(plant));
    assert!(rt; are_numbered(commands));
    assert!(rt; are_for_plant(&shared, commands));
    assert!(rt; keepers.len() == shared.resources());
    let report = run_threads(rt, alloc, shared, commands, keepers, gate, max_number);
    must(rt, report)
}

/// The same, and the keepers that the run hands back.
pub fn run_over<R: Threads + Wait + Sync + Abort, K: Keeper, G: Gate>(
    rt: &R,
    alloc: Global,
    plant: &Arc<Plant>,
    commands: &[Command],
    keepers: Vec<K>,
    gate: &G,
    max_number: u32,
) -> (Report, Vec<K>) {
    let shared = must(rt, Arc::try_clone(plant));
    assert!(rt; are_numbered(commands));
    assert!(rt; are_for_plant(&shared, commands));
    assert!(rt; keepers.len() == shared.resources());
    let ran = run_with_keepers(rt, alloc, shared, commands, keepers, gate, max_number);
    must(rt, ran)
}

/// The report of a run on the pair.
pub fn run<R: Threads + Wait + Sync + Abort, K: Keeper, G: Gate>(
    rt: &R,
    alloc: Global,
    asks: &[Ask],
    keepers: Vec<K>,
    gate: &G,
    max_number: u32,
) -> Report {
    let plant = pair(rt, alloc);
    let commands = commands_of(rt, alloc, asks);
    let commands = commands.as_slice();
    run_on(rt, alloc, &plant, commands, keepers, gate, max_number)
}

/// The world of a plant after these events, by one thread.
pub fn world_of(
    rt: &impl Abort,
    alloc: Global,
    plant: &Arc<Plant>,
    first: &[u32],
    opening: &[Vec<Retained>],
    max_number: u32,
    events: &[Event],
) -> World {
    let shared = must(rt, Arc::try_clone(plant));
    assert!(rt; first.len() == shared.resources());
    assert!(rt; are_openings(&shared, opening));
    let made = World::new(alloc, shared, first, opening, max_number);
    let mut world = must(rt, made);
    holds(
        rt,
        "there is memory for the run",
        world.run(alloc, events).is_ok(),
    );
    world
}

fn entry_of(frame: &Frame) -> Entry {
    let evaluation = frame.evaluation();
    let name = evaluation.name();
    let from = match evaluation.takes().first() {
        Some(take) => take.from,
        None => None,
    };
    let pair = (name.incarnation, name.number);
    let value = evaluation.outputs().values().first().copied();
    (name.task.resource, pair, from, value)
}

fn letter_of(event: &Event) -> char {
    match event {
        Event::Evaluate { .. } => 'E',
        Event::Deliver { .. } => 'D',
        Event::Restart { .. } => 'R',
        Event::Hear { .. } => 'H',
    }
}

/// The incarnations in which the resources began.
fn first_of(rt: &impl Abort, alloc: Global, report: &Report) -> Vec<u32> {
    let mut first = Vec::new(alloc);
    for journal in report.journals.as_slice() {
        must(rt, first.push(journal.first));
    }
    first
}

/// What the tasks of each resource began with.
fn opening_of(rt: &impl Abort, alloc: Global, report: &Report) -> Vec<Vec<Retained>> {
    let mut opening = Vec::new(alloc);
    for journal in report.journals.as_slice() {
        let mut tasks = Vec::new(alloc);
        for retained in journal.opening.as_slice() {
            must(rt, tasks.push(must(rt, retained.try_copy())));
        }
        must(rt, opening.push(tasks));
    }
    opening
}

/// One thread that does the events of the book's schedule makes the book's entries. These are the events.
pub fn is_made_again(
    rt: &impl Abort,
    alloc: Global,
    plant: &Arc<Plant>,
    report: &Report,
    max_number: u32,
) -> Vec<Event> {
    let first = first_of(rt, alloc, report);
    let events = must(rt, report.book.schedule(alloc));
    let opening = opening_of(rt, alloc, report);
    let world = world_of(
        rt,
        alloc,
        plant,
        first.as_slice(),
        opening.as_slice(),
        max_number,
        events.as_slice(),
    );
    let entries = report.book.entries();
    let how_many = world.log().len();
    equal(rt, "how many evaluations", &how_many, &entries.len());
    for (made, entry) in world.log().iter().zip(entries) {
        holds(rt, "the evaluation is the entry", made.same(entry));
    }
    events
}

/// Just this is told of a run on the pair, and the run of the book's schedule makes the book's entries.
pub fn has_told(rt: &impl Abort, alloc: Global, report: &Report, max_number: u32, told: &Told) {
    has_told_on(rt, alloc, &pair(rt, alloc), report, max_number, told);
}

/// Just this is told of a run on a plant, and the run of the book's schedule makes the book's entries.
pub fn has_told_on(
    rt: &impl Abort,
    alloc: Global,
    plant: &Arc<Plant>,
    report: &Report,
    max_number: u32,
    told: &Told,
) {
    let entries = report.book.entries();
    equal(rt, "how many entries", &entries.len(), &told.entries.len());
    for (frame, entry) in entries.iter().zip(told.entries) {
        equal(rt, "entry", &entry_of(frame), entry);
    }
    let unanswered = report.unanswered.as_slice();
    equal(rt, "unanswered", &unanswered, &told.unanswered);
    let faults = report.node_faults.as_slice();
    equal(rt, "how many faults", &faults.len(), &told.faults.len());
    for (fault, wanted) in faults.iter().zip(told.faults) {
        let found = (fault.resource, fault.ticket, fault.cause);
        equal(rt, "fault", &found, wanted);
    }
    let mut kinds = String::new(alloc);
    for event in &is_made_again(rt, alloc, plant, report, max_number) {
        must(rt, kinds.push(letter_of(event)));
    }
    equal(rt, "kinds of events", &kinds.as_str(), &told.kinds);
}
