//! What a journal notes, and what a core answers to it.

use crate::checks::{equal, holds, must};
use crate::runs::pair;
use evaluation::{Frame, Inputs};
use exchange_core::{Accepted, Core, initial_opening, is_opening};
use node::{Journal, Opening, Step};
use plant::TaskRef;
use std::process::Abort;
use std::sync::Arc;

/// Whether a step notes that this frame was received.
fn took(step: &Step, frame: &Frame) -> bool {
    match step {
        Step::Took(taken) => taken.same(frame),
        Step::Made(_) | Step::Restarted { .. } | Step::Heard { .. } => false,
    }
}

/// How many steps a journal has, and whether the core holds an evaluation of the first resource's first task.
fn standing(journal: &Journal, core: &Core) -> (usize, bool) {
    let counter = TaskRef {
        resource: 0,
        task: 0,
    };
    (journal.steps.as_slice().len(), core.held(counter).is_some())
}

/// The answer to a frame, which comes again where there was no room for it: journal and core are as before then.
fn taken(rt: &impl Abort, journal: &mut Journal, core: &mut Core, frame: &Frame) -> Accepted {
    let before = standing(journal, core);
    match journal.take(core, must(rt, frame.try_clone())) {
        Ok(accepted) => accepted,
        Err(_) => {
            equal(rt, "as before", &standing(journal, core), &before);
            must(rt, journal.take(core, must(rt, frame.try_clone())))
        }
    }
}

#[test]
fn a_frame_is_taken_once_and_noted_each_time(rt: HostRuntime) {
    let alloc = rt.alloc();
    let plant = pair(&rt, alloc);
    let inputs = must(&rt, Inputs::read(alloc, "%IX0=1"));
    let shared = must(&rt, Arc::try_clone(&plant));
    let first = must(&rt, vec![in alloc; 1u32; plant.resources()]);
    let first = first.as_slice();
    assert!(rt;
        first.len() == shared.resources(),
        "a number for each resource"
    );
    let opening = must(&rt, initial_opening(alloc, &shared, 0));
    assert!(rt; is_opening(&shared, 0, &opening));
    let made = Core::new(alloc, shared, 0, first, opening.as_slice(), 9);
    let mut counter = must(&rt, made);
    let frame = must(&rt, counter.evaluate(alloc, 1, 0, 10, &inputs));
    assert!(rt;
        first.len() == plant.resources(),
        "a number for each resource"
    );
    let opening = must(&rt, initial_opening(alloc, &plant, 1));
    assert!(rt; is_opening(&plant, 1, &opening));
    let made = Core::new(alloc, plant, 1, first, opening.as_slice(), 9);
    let mut core = must(&rt, made);
    let mut journal = Journal::new(alloc, 1, 1, Opening::of(opening));
    for &answer in &[Accepted::Taken, Accepted::Old] {
        let found = taken(&rt, &mut journal, &mut core, &frame);
        equal(&rt, "answer", &found, &answer);
    }
    let steps = journal.steps.as_slice();
    equal(&rt, "how many steps", &steps.len(), &2);
    for step in steps {
        holds(&rt, "the frame was noted", took(step, &frame));
    }
}
