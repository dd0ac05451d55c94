//! What a list of events does to the resources of a plant.

use crate::acts::{Act, FAST, SLOW, do_the_same, events_of};
use crate::checks::{equal, holds, must};
use crate::runs::{fresh_world, opened_world, plant_of};
use evaluation::{Name, Retained};
use exchange_core::Accepted;
use plant::TaskRef;
use std::alloc::Global;
use std::process::Abort;
use std_blocks::Value;
use worked_texts::{HOLD, PAIR};
use world::{Done, Event, World, WorldFault, are_openings};

/// A producer that restarts, of which is heard late, and a delivery of an evaluation of before. What isn't lawful stands between.
const ACTS: [Act; 15] = [
    Act::Deliver(99, 1),
    Act::Hear(0, 7, 1),
    Act::Hear(1, 0, 2),
    Act::Evaluate(
        TaskRef {
            resource: 8,
            task: 0,
        },
        false,
    ),
    Act::Evaluate(
        TaskRef {
            resource: 0,
            task: 7,
        },
        false,
    ),
    Act::Evaluate(FAST, false),
    Act::Evaluate(FAST, true),
    Act::Deliver(2, 1),
    Act::Restart(0),
    Act::Evaluate(FAST, false),
    Act::Deliver(3, 1),
    Act::Evaluate(SLOW, false),
    Act::Deliver(2, 1),
    Act::Evaluate(SLOW, false),
    Act::Hear(1, 0, 2),
];

const ANSWERS: [Result<Done, WorldFault>; 15] = [
    Err(WorldFault::NoSuchMessage),
    Err(WorldFault::NoSuchResource),
    Err(WorldFault::NeverHeld),
    Err(WorldFault::NoSuchResource),
    Err(WorldFault::NoSuchTask),
    Ok(Done::Evaluated { message: 1 }),
    Ok(Done::Evaluated { message: 2 }),
    Ok(Done::Delivered {
        accepted: Accepted::Taken,
    }),
    Ok(Done::Restarted { incarnation: 2 }),
    Ok(Done::Evaluated { message: 3 }),
    Ok(Done::Delivered {
        accepted: Accepted::Taken,
    }),
    Ok(Done::Evaluated { message: 4 }),
    Ok(Done::Delivered {
        accepted: Accepted::Old,
    }),
    Ok(Done::Evaluated { message: 5 }),
    Ok(Done::Heard { newer: true }),
];

fn pair_of(name: Name) -> (u32, u32) {
    (name.incarnation, name.number)
}

/// Which evaluation of a task a resource holds.
fn held(world: &World, resource: usize, task: TaskRef) -> Option<(u32, u32)> {
    Some(pair_of(world.held(resource, task)?.name()))
}

/// What the last evaluation took from the counter.
fn last_take(world: &World) -> Option<(u32, u32)> {
    world.log().last()?.evaluation().takes().first()?.from
}

/// How many evaluations and how many events there are.
fn has_counts(rt: &impl Abort, world: &World, evaluations: usize, events: usize) {
    let counts = (world.log().len(), world.events().len());
    equal(rt, "counts", &counts, &(evaluations, events));
}

/// All is done that is lawful.
fn has_restarted(rt: &impl Abort, world: &World) {
    has_counts(rt, world, 5, 10);
    let names = [(1, 1), (1, 2), (2, 1), (1, 1), (1, 2)];
    for (frame, name) in world.log().iter().zip(&names) {
        equal(rt, "name", &pair_of(frame.name()), name);
    }
    equal(rt, "held", &held(world, 1, FAST), &Some((2, 1)));
    equal(rt, "last take", &last_take(world), &Some((2, 1)));
}

/// No resource holds what it doesn't take, and a resource that isn't there holds nothing.
fn holds_no_other(rt: &impl Abort, world: &World) {
    for &(resource, task) in &[(0, FAST), (0, SLOW), (1, SLOW), (7, FAST)] {
        equal(rt, "held", &held(world, resource, task), &None);
    }
}

/// How many evaluations and events there are, and which evaluation each resource holds of the other one.
type Standing = ((usize, usize), (Option<(u32, u32)>, Option<(u32, u32)>));

fn standing(world: &World) -> Standing {
    let counts = (world.log().len(), world.events().len());
    let both = (held(world, 0, SLOW), held(world, 1, FAST));
    (counts, both)
}

/// The answer to an event, which happens again where memory was refused: all is as before then.
fn answer_to(
    rt: &impl Abort,
    alloc: Global,
    world: &mut World,
    event: &Event,
) -> Result<Done, WorldFault> {
    let before = standing(world);
    let answer = world.step(alloc, event);
    if answer != Err(WorldFault::Memory) {
        return answer;
    }
    equal(rt, "as before", &standing(world), &before);
    world.step(alloc, event)
}

/// Each of these acts is answered so.
fn steps(
    rt: &impl Abort,
    alloc: Global,
    world: &mut World,
    acts: &[Act],
    answers: &[Result<Done, WorldFault>],
) {
    let events = events_of(rt, alloc, acts);
    for (event, answer) in events.iter().zip(answers) {
        equal(rt, "answer", &answer_to(rt, alloc, world, event), answer);
    }
}

#[test]
fn each_step_tells_what_it_did(rt: HostRuntime) {
    let alloc = rt.alloc();
    let plant = plant_of(&rt, alloc, PAIR);
    let mut world = fresh_world(&rt, alloc, &plant, &[1, 1]);
    has_counts(&rt, &world, 0, 0);
    equal(&rt, "held", &held(&world, 1, FAST), &None);
    holds_no_other(&rt, &world);
    steps(&rt, alloc, &mut world, &ACTS, &ANSWERS);
    has_restarted(&rt, &world);
    holds_no_other(&rt, &world);
    let second = must(&rt, world.log().get(1).ok_or("no second evaluation"));
    let values = [Value::Int(1), Value::Bool(false)];
    equal(&rt, "image", &second.outputs().values(), &values.as_slice());
}

#[test]
fn the_greatest_incarnation_is_the_last(rt: HostRuntime) {
    let alloc = rt.alloc();
    let plant = plant_of(&rt, alloc, PAIR);
    let mut world = fresh_world(&rt, alloc, &plant, &[u32::MAX, 1]);
    let spent = [Err(WorldFault::IncarnationsSpent)];
    steps(&rt, alloc, &mut world, &[Act::Restart(0)], &spent);
    has_counts(&rt, &world, 0, 0);
    let restarted = [Ok(Done::Restarted { incarnation: 2 })];
    steps(&rt, alloc, &mut world, &[Act::Restart(1)], &restarted);
    has_counts(&rt, &world, 0, 1);
}

/// Runs the events, and goes on where memory was refused once; whether all were run.
fn run_on(alloc: Global, world: &mut World, events: &[Event]) -> bool {
    let Err(done) = world.run(alloc, events) else {
        return true;
    };
    let Some(rest) = events.get(done..) else {
        return false;
    };
    world.run(alloc, rest).is_ok()
}

#[test]
fn a_run_does_the_lawful_events(rt: HostRuntime) {
    let alloc = rt.alloc();
    let plant = plant_of(&rt, alloc, PAIR);
    let events = events_of(&rt, alloc, &ACTS);
    let mut world = fresh_world(&rt, alloc, &plant, &[1, 1]);
    let has_run = run_on(alloc, &mut world, events.as_slice());
    holds(&rt, "all events have run", has_run);
    has_restarted(&rt, &world);
    let lawful = events.get(5..).unwrap_or_default();
    holds(
        &rt,
        "the lawful events are kept",
        do_the_same(world.events(), lawful),
    );
}

/// An opening of one resource with one task, whose retained variables have these values.
fn opening_of(rt: &impl Abort, alloc: Global, values: &[Value]) -> Vec<Vec<Retained>> {
    let values = must(rt, Vec::from_slice(alloc, values));
    let tasks = must(rt, vec![in alloc; Retained::from_values(values)]);
    must(rt, vec![in alloc; tasks])
}

/// The task of HOLD gives what was kept, also after a restart, and FALSE for what isn't retained.
#[test]
fn a_world_opens_with_what_was_kept(rt: HostRuntime) {
    let alloc = rt.alloc();
    let plant = plant_of(&rt, alloc, HOLD);
    let opening = opening_of(&rt, alloc, &[Value::Bool(true)]);
    let mut world = opened_world(&rt, alloc, &plant, &[1], opening.as_slice());
    let acts = [
        Act::Restart(0),
        Act::Evaluate(FAST, false),
        Act::Restart(0),
        Act::Evaluate(FAST, false),
    ];
    let events = events_of(&rt, alloc, &acts);
    let has_run = run_on(alloc, &mut world, events.as_slice());
    holds(&rt, "all events have run", has_run);
    let kept = [Value::Bool(true), Value::Bool(false)];
    for made in world.log() {
        equal(&rt, "image", &made.outputs().values(), &kept.as_slice());
    }
    has_counts(&rt, &world, 2, 4);
}

#[test]
fn an_opening_has_a_value_for_each_retained_variable(rt: HostRuntime) {
    let alloc = rt.alloc();
    let plant = plant_of(&rt, alloc, HOLD);
    for values in &[
        [].as_slice(),
        &[Value::Int(0)],
        &[Value::Bool(true), Value::Bool(true)],
    ] {
        let opening = opening_of(&rt, alloc, values);
        let suits = are_openings(&plant, opening.as_slice());
        holds(&rt, "it is no opening", !suits);
    }
    holds(&rt, "a resource has one", !are_openings(&plant, &[]));
}
