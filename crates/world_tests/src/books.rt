//! What a book refuses, and the schedules that it hands out.

use crate::acts::{Act, FAST, SLOW, do_the_same, drawn_events, events_of};
use crate::checks::{equal, holds, must};
use crate::runs::{are_same, book_of, plant_of, world_after};
use evaluation::{
    Evaluation, Frame, Image, Inputs, Name, Take, TaskState, fits_state, suits_takes,
};
use plant::{Plant, TaskCode, TaskRef};
use std::alloc::Global;
use std::process::Abort;
use std::sync::Arc;
use std_blocks::Value;
use worked_texts::{HOLD, LOOP, PAIR};
use world::{Book, Event, Misfit, Schedule};

/// A frame to be entered, and what the book answers: resource, incarnation and number, what was heard, what was taken of the counter and its values there.
type Row = (
    (usize, u32, u32),
    &'static [u32],
    Option<(u32, u32)>,
    &'static [Value],
    Option<Misfit>,
);

/// What the counter gives before it counts, after one count, and after two.
const NONE: &[Value] = &[Value::Int(0), Value::Bool(false)];

const ONE: &[Value] = &[Value::Int(1), Value::Bool(false)];

const TWO: &[Value] = &[Value::Int(2), Value::Bool(false)];

/// Numbers and takes, where the counter has one entry.
const TAKES: &[Row] = &[
    (
        (1, 1, 2),
        &[1, 1],
        Some((1, 1)),
        ONE,
        Some(Misfit::WrongNumber),
    ),
    (
        (1, 1, 1),
        &[1, 1],
        Some((1, 2)),
        ONE,
        Some(Misfit::UnknownTake),
    ),
    ((1, 1, 1), &[1, 1], Some((1, 1)), TWO, Some(Misfit::Torn)),
    ((1, 1, 1), &[1, 1], Some((1, 1)), ONE, None),
    ((1, 1, 2), &[1, 1], None, NONE, Some(Misfit::Back)),
];

/// What a resource hears that isn't there.
const EIGHT: &[u32] = &[1, 1, 1, 1, 1, 1, 1, 1];

/// A name goes on from the last one of its resource.
const NAMES: &[Row] = &[
    ((7, 1, 1), EIGHT, None, NONE, Some(Misfit::WrongNumber)),
    ((1, 0, 1), &[1, 0], None, NONE, Some(Misfit::WrongNumber)),
    ((1, 1, 0), &[1, 1], None, NONE, Some(Misfit::WrongNumber)),
    ((1, 4, 2), &[1, 4], None, NONE, Some(Misfit::WrongNumber)),
    ((1, 4, 1), &[1, 4], None, NONE, None),
    ((1, 3, 1), &[1, 3], None, NONE, Some(Misfit::WrongNumber)),
    ((1, 4, 1), &[1, 4], None, NONE, Some(Misfit::WrongNumber)),
    ((1, 4, 3), &[1, 4], None, NONE, Some(Misfit::WrongNumber)),
    ((1, 4, 2), &[1, 4], None, NONE, None),
];

/// The counter has two entries. After a restart nothing is taken that is addressed to the incarnation before.
const BACK: &[Row] = &[
    ((1, 1, 1), &[1, 1], Some((1, 2)), ONE, None),
    ((1, 1, 2), &[1, 1], Some((1, 1)), ONE, Some(Misfit::Back)),
    ((1, 1, 2), &[1, 1], Some((1, 2)), ONE, None),
    (
        (1, 2, 1),
        &[1, 2],
        Some((1, 1)),
        ONE,
        Some(Misfit::NotAddressed),
    ),
    (
        (1, 2, 1),
        &[1, 2],
        Some((1, 2)),
        ONE,
        Some(Misfit::NotAddressed),
    ),
    ((1, 2, 1), &[1, 2], None, NONE, None),
];

/// The counter has one entry. One number is heard of each resource; none falls before a restart, and none is below the first one.
/// What is heard of a resource raises its incarnation.
const HEARD: &[Row] = &[
    (
        (1, 2, 1),
        &[1, 2],
        Some((1, 1)),
        ONE,
        Some(Misfit::NotAddressed),
    ),
    ((0, 1, 2), &[1], Some((1, 1)), ONE, Some(Misfit::Misheard)),
    (
        (0, 1, 2),
        &[1, 1, 1],
        Some((1, 1)),
        ONE,
        Some(Misfit::Misheard),
    ),
    (
        (0, 1, 2),
        &[1, 0],
        Some((1, 1)),
        ONE,
        Some(Misfit::Misheard),
    ),
    ((0, 1, 2), &[1, 3], Some((1, 1)), ONE, None),
    (
        (1, 1, 1),
        &[1, 1],
        Some((1, 1)),
        ONE,
        Some(Misfit::WrongNumber),
    ),
    (
        (0, 1, 3),
        &[1, 2],
        Some((1, 2)),
        ONE,
        Some(Misfit::Misheard),
    ),
    ((1, 3, 1), &[1, 3], Some((1, 2)), ONE, None),
    ((0, 2, 1), &[2, 1], None, NONE, None),
];

const OFF: &[Value] = &[Value::Bool(false)];

const ON: &[Value] = &[Value::Bool(true)];

/// A task that takes its own output takes its last.
const OWN: &[Row] = &[
    ((0, 1, 2), &[1], None, OFF, Some(Misfit::NotOwnLatest)),
    ((0, 1, 2), &[1], Some((1, 1)), ON, None),
    ((0, 1, 3), &[1], None, OFF, Some(Misfit::NotOwnLatest)),
    (
        (0, 1, 3),
        &[1],
        Some((1, 1)),
        ON,
        Some(Misfit::NotOwnLatest),
    ),
    ((0, 1, 3), &[1], Some((1, 2)), ON, Some(Misfit::Torn)),
    ((0, 1, 3), &[1], Some((1, 2)), OFF, None),
];

/// A frame of this name, from the first state of the code, that had heard this and took these values from there.
fn frame_of(
    rt: &impl Abort,
    alloc: Global,
    code: &Arc<TaskCode>,
    name: Name,
    heard: &[u32],
    from: Option<(u32, u32)>,
    values: &[Value],
) -> Frame {
    let take = Take {
        producer: FAST,
        from,
        image: Image::of(must(rt, Vec::from_slice(alloc, values))),
    };
    let takes = must(rt, vec![in alloc; take]);
    let before = must(rt, TaskState::initial(alloc, code));
    let inputs = must(rt, Inputs::read(alloc, ""));
    let code = must(rt, Arc::try_clone(code));
    let heard = must(rt, Vec::from_slice(alloc, heard));
    let resource = name.task.resource;
    assert!(rt; fits_state(&code, &before));
    assert!(rt; suits_takes(&code, takes.as_slice()));
    assert!(rt; resource < heard.len());
    assert!(rt; heard[resource] == name.incarnation);
    let made = Evaluation::make(alloc, 9, name, heard, 10, inputs, takes, before, code);
    must(rt, Frame::new(alloc, must(rt, made)))
}

/// Enters a frame, once more where memory was refused. Where it is refused, it comes back. The entries are those before, and this one where it isn't refused.
fn enter(
    rt: &impl Abort,
    book: &mut Book,
    entries: &mut Vec<Frame>,
    frame: Frame,
) -> Option<Misfit> {
    let share = must(rt, frame.try_clone());
    let answer = match entered(rt, book, entries.as_slice(), frame) {
        Err((back, Misfit::Memory)) => entered(rt, book, entries.as_slice(), back),
        answer => answer,
    };
    match answer {
        Ok(()) => {
            must(rt, entries.push(share));
            let are_those = are_same(book.entries(), entries.as_slice());
            holds(rt, "the entries are those that fit", are_those);
            None
        }
        Err((back, misfit)) => {
            holds(rt, "the frame comes back", back.same(&share));
            Some(misfit)
        }
    }
}

/// What the book answers to a frame. Where it refuses it, it has these entries as before.
fn entered(
    rt: &impl Abort,
    book: &mut Book,
    entries: &[Frame],
    frame: Frame,
) -> Result<(), (Frame, Misfit)> {
    let answer = book.enter(frame);
    let is_kept = answer.is_ok() || are_same(book.entries(), entries);
    holds(rt, "a refused frame changes nothing", is_kept);
    answer
}

/// A book of the task of this place of the plant answers so, after these evaluations of its first task.
fn answers(rt: &impl Abort, alloc: Global, text: &str, task: TaskRef, acts: &[Act], rows: &[Row]) {
    let plant = plant_of(rt, alloc, text);
    let code = must(rt, plant.code(task).ok_or("no task"));
    let mut book = book_after(rt, alloc, &plant, acts);
    let mut entries = Vec::new(alloc);
    for frame in book.entries() {
        must(rt, entries.push(must(rt, frame.try_clone())));
    }
    for &((resource, incarnation, number), heard, from, values, misfit) in rows {
        let name = Name {
            task: TaskRef { resource, task: 0 },
            incarnation,
            number,
        };
        let frame = frame_of(rt, alloc, code, name, heard, from, values);
        let answer = enter(rt, &mut book, &mut entries, frame);
        equal(rt, "answer", &answer, &misfit);
    }
}

/// The book of what these acts make, its first incarnations 1.
fn book_after(rt: &impl Abort, alloc: Global, plant: &Arc<Plant>, acts: &[Act]) -> Book {
    let first = [1, 1];
    let first = first.get(..plant.resources()).ok_or("too many resources");
    let first = must(rt, first);
    let events = events_of(rt, alloc, acts);
    let world = world_after(rt, alloc, plant, first, events.as_slice());
    book_of(rt, alloc, first, world.log())
}

#[test]
fn a_book_refuses_what_does_not_fit(rt: HostRuntime) {
    let alloc = rt.alloc();
    let once = [Act::Evaluate(FAST, true)];
    let twice = [Act::Evaluate(FAST, true), Act::Evaluate(FAST, false)];
    answers(&rt, alloc, PAIR, SLOW, &once, TAKES);
    answers(&rt, alloc, PAIR, SLOW, &once, NAMES);
    answers(&rt, alloc, PAIR, SLOW, &twice, BACK);
    answers(&rt, alloc, PAIR, SLOW, &once, HEARD);
    answers(&rt, alloc, LOOP, FAST, &[Act::Evaluate(FAST, false)], OWN);
}

/// The schedule of a book, asked for again where memory was refused.
fn schedule_of(rt: &impl Abort, alloc: Global, book: &Book) -> Vec<Event> {
    match book.schedule(alloc) {
        Ok(schedule) => schedule,
        Err(_) => must(rt, book.schedule(alloc)),
    }
}

/// The book of what some acts make hands out this schedule.
fn has_schedule(rt: &impl Abort, alloc: Global, plant: &str, acts: &[Act], wanted: &[Act]) {
    let plant = plant_of(rt, alloc, plant);
    let schedule = schedule_of(rt, alloc, &book_after(rt, alloc, &plant, acts));
    let wanted = events_of(rt, alloc, wanted);
    let is_so = do_the_same(schedule.as_slice(), wanted.as_slice());
    holds(rt, "the schedule is the wanted one", is_so);
}

/// What is made, or heard of, restarts as often as the incarnation rose.
const RESTARTS: &[Act] = &[
    Act::Evaluate(FAST, true),
    Act::Restart(1),
    Act::Restart(1),
    Act::Restart(1),
    Act::Hear(0, 1, 4),
    Act::Evaluate(FAST, false),
    Act::Deliver(2, 1),
    Act::Evaluate(SLOW, false),
    Act::Restart(0),
    Act::Evaluate(FAST, false),
];

/// The watcher restarts, and takes again once the counter has heard of it.
const HEARINGS: &[Act] = &[
    Act::Evaluate(FAST, true),
    Act::Deliver(1, 1),
    Act::Evaluate(SLOW, false),
    Act::Restart(1),
    Act::Evaluate(SLOW, false),
    Act::Hear(0, 1, 2),
    Act::Evaluate(FAST, false),
    Act::Deliver(4, 1),
    Act::Evaluate(SLOW, false),
];

/// The first message comes behind the second one, and after a restart, too late for its reader. What is taken is delivered once.
const LATE: &[Act] = &[
    Act::Evaluate(FAST, false),
    Act::Evaluate(FAST, true),
    Act::Deliver(2, 1),
    Act::Deliver(1, 1),
    Act::Evaluate(SLOW, false),
    Act::Evaluate(SLOW, false),
    Act::Restart(1),
    Act::Restart(1),
    Act::Deliver(1, 1),
    Act::Evaluate(SLOW, false),
    Act::Restart(0),
];

const LATE_AGAIN: &[Act] = &[
    Act::Evaluate(FAST, false),
    Act::Evaluate(FAST, true),
    Act::Deliver(2, 1),
    Act::Evaluate(SLOW, false),
    Act::Evaluate(SLOW, false),
    Act::Restart(1),
    Act::Restart(1),
    Act::Evaluate(SLOW, false),
];

/// Nothing is delivered to its own resource.
const OWN_MESSAGE: &[Act] = &[
    Act::Evaluate(FAST, false),
    Act::Deliver(1, 0),
    Act::Evaluate(FAST, false),
    Act::Restart(0),
    Act::Evaluate(FAST, false),
];

const OWN_AGAIN: &[Act] = &[
    Act::Evaluate(FAST, false),
    Act::Evaluate(FAST, false),
    Act::Restart(0),
    Act::Evaluate(FAST, false),
];

#[test]
fn a_schedule_has_what_the_entries_need(rt: HostRuntime) {
    let alloc = rt.alloc();
    has_schedule(&rt, alloc, PAIR, RESTARTS, RESTARTS);
    has_schedule(&rt, alloc, PAIR, HEARINGS, HEARINGS);
    has_schedule(&rt, alloc, PAIR, LATE, LATE_AGAIN);
    has_schedule(&rt, alloc, LOOP, OWN_MESSAGE, OWN_AGAIN);
}

/// How many entries the book of what these events make has. The run of its schedule makes them again.
fn made_again(
    rt: &impl Abort,
    alloc: Global,
    plant: &Arc<Plant>,
    first: &[u32],
    events: &[Event],
) -> usize {
    let world = world_after(rt, alloc, plant, first, events);
    let book = book_of(rt, alloc, first, world.log());
    let schedule = must(rt, book.schedule(alloc));
    let again = world_after(rt, alloc, plant, first, schedule.as_slice());
    let is_same = are_same(again.log(), book.entries()) && are_same(book.entries(), world.log());
    holds(rt, "the entries are made again", is_same);
    book.entries().len()
}

/// 500 lists of events drawn by lot for each of three plants are made again by the schedules of their books. They have 1,000 evaluations at least.
#[test]
fn drawn_logs_are_made_again(rt: HostRuntime) {
    let alloc = rt.alloc();
    for &(text, first) in &[
        (PAIR, [2, 5].as_slice()),
        (LOOP, [3].as_slice()),
        (HOLD, [1].as_slice()),
    ] {
        let plant = plant_of(&rt, alloc, text);
        let mut seed = 1;
        let mut entries: usize = 0;
        for _list in 0..500 {
            let events = drawn_events(&rt, alloc, &mut seed, first.len());
            let made = made_again(&rt, alloc, &plant, first, events.as_slice());
            entries = entries.saturating_add(made);
        }
        holds(&rt, "there are 1,000 evaluations", 1_000 <= entries);
    }
}
