//! What the core of a resource keeps, takes and forgets.

use crate::checks::{equal, holds, must};
use evaluation::{Frame, Inputs};
use exchange_core::{Accepted, Core, CoreFault, EvalFault, initial_opening, is_opening};
use plant::{Plant, TaskRef};
use std::alloc::Global;
use std::process::Abort;
use std::sync::Arc;
use std_blocks::Value;
use worked_texts::{LOOP, PAIR};

/// What M was outlives a restart; that K was set does not.
const HOLD: &str = "PROGRAM HOLD
VAR_INPUT GO : BOOL; END_VAR
VAR_OUTPUT Q, L : BOOL; END_VAR
VAR RETAIN M : BOOL; END_VAR
VAR K : BOOL; END_VAR
|  GO    M     K
+--| |---(S)---(S)
|  M     Q
+--| |---( )
|  K     L
+--| |---( )
END_PROGRAM
CONFIGURATION C
  RESOURCE R1 ON NODE
    TASK TICK(INTERVAL := T#10ms, PRIORITY := 0);
    PROGRAM H WITH TICK : HOLD(GO := %IX0);
  END_RESOURCE
END_CONFIGURATION
";

const FAST: TaskRef = TaskRef {
    resource: 0,
    task: 0,
};

/// The core of a resource of a plant, in its first incarnation.
fn core(rt: &impl Abort, alloc: Global, plant: &str, resource: usize) -> Result<Core, CoreFault> {
    let plant = must(rt, Plant::read(alloc, plant));
    let plant = must(rt, Arc::new(alloc, plant));
    let first = must(rt, vec![in alloc; 1u32; plant.resources()]);
    let first = first.as_slice();
    assert!(rt;
        first.len() == plant.resources(),
        "a number for each resource"
    );
    let opening = must(rt, initial_opening(alloc, &plant, resource));
    assert!(rt; is_opening(&plant, resource, &opening));
    Core::new(alloc, plant, resource, first, &opening, u32::MAX)
}

/// The next evaluation of the first task, its input on.
fn evaluated(rt: &impl Abort, alloc: Global, core: &mut Core) -> Frame {
    evaluated_with(rt, alloc, core, "%IX0=1")
}

/// The next evaluation of the first task, asked again where memory was refused: then the same call gives what it would have given.
fn evaluated_with(rt: &impl Abort, alloc: Global, core: &mut Core, inputs: &str) -> Frame {
    let inputs = must(rt, Inputs::read(alloc, inputs));
    let answer = match core.evaluate(alloc, 1, 0, 10, &inputs) {
        Err(EvalFault::Memory) => core.evaluate(alloc, 1, 0, 10, &inputs),
        answer => answer,
    };
    must(rt, answer)
}

/// The first evaluation of the first task of a plant.
fn first_of(rt: &impl Abort, alloc: Global, plant: &str) -> Frame {
    let mut core = must(rt, core(rt, alloc, plant, 0));
    evaluated(rt, alloc, &mut core)
}

/// Which evaluation of the counter a core holds.
fn held(core: &Core) -> Option<(u32, u32)> {
    let frame = core.held(FAST)?;
    Some((frame.name().incarnation, frame.name().number))
}

#[test]
fn a_resource_that_does_not_exist_has_no_core(rt: HostRuntime) {
    for &(resource, fault) in &[(0, None), (1, None), (2, Some(CoreFault::NoSuchResource))] {
        let found = core(&rt, rt.alloc(), PAIR, resource).err();
        equal(&rt, "core", &found, &fault);
    }
}

#[test]
fn a_refused_evaluation_leaves_no_gap(rt: HostRuntime) {
    let mut counter = must(&rt, core(&rt, rt.alloc(), PAIR, 0));
    let first = evaluated(&rt, rt.alloc(), &mut counter);
    let second = evaluated(&rt, rt.alloc(), &mut counter);
    let numbers = (first.name().number, second.name().number);
    equal(&rt, "numbers", &numbers, &(1, 2));
    let (before, after) = (second.evaluation().before(), first.evaluation().after());
    holds(&rt, "from the state after", before.same(after));
    let other = first_of(&rt, rt.alloc(), PAIR);
    holds(&rt, "the evaluation of any such core", first.same(&other));
}

/// The image of another plant's task has other kinds.
#[test]
fn a_core_takes_what_it_can_use(rt: HostRuntime) {
    let mut watcher = must(&rt, core(&rt, rt.alloc(), PAIR, 1));
    for &(plant, accepted) in &[
        (LOOP, Accepted::Unused),
        (PAIR, Accepted::Taken),
        (PAIR, Accepted::Old),
        (LOOP, Accepted::Unused),
    ] {
        let frame = first_of(&rt, rt.alloc(), plant);
        equal(&rt, "accepted", &watcher.accept(frame), &accepted);
    }
    equal(&rt, "held", &held(&watcher), &Some((1, 1)));
}

/// Only news is heard, and only what is addressed to the core's incarnation is taken.
#[test]
fn a_core_hears_of_restarts(rt: HostRuntime) {
    let mut counter = must(&rt, core(&rt, rt.alloc(), PAIR, 0));
    for &(of, incarnation, newer) in &[
        (1, 2, true),
        (1, 2, false),
        (1, 1, false),
        (0, 9, false),
        (7, 2, false),
    ] {
        equal(&rt, "newer", &counter.hear(of, incarnation), &newer);
    }
    equal(&rt, "heard", &counter.heard(), &[1, 2].as_slice());
    let frame = evaluated(&rt, rt.alloc(), &mut counter);
    let heard = frame.evaluation().heard();
    equal(&rt, "heard by its maker", &heard, &[1, 2].as_slice());
    let mut watcher = must(&rt, core(&rt, rt.alloc(), PAIR, 1));
    let share = must(&rt, frame.try_clone());
    equal(&rt, "accepted", &watcher.accept(share), &Accepted::Stray);
    let mut watcher = restarted(&rt, rt.alloc(), watcher, 2);
    equal(&rt, "accepted", &watcher.accept(frame), &Accepted::Taken);
}

/// A core after a restart in this incarnation, or as it came back.
fn asked(rt: &impl Abort, alloc: Global, core: Core, incarnation: u32) -> Core {
    let before = (held(&core), core.incarnation());
    if incarnation <= before.1 {
        return core;
    }
    match core.restart(alloc, incarnation) {
        Ok(core) => core,
        Err((core, _)) => {
            equal(rt, "kept", &(held(&core), core.incarnation()), &before);
            core
        }
    }
}

/// A core after a restart in this incarnation, asked again where memory was refused.
fn restarted(rt: &impl Abort, alloc: Global, core: Core, incarnation: u32) -> Core {
    let core = asked(rt, alloc, core, incarnation);
    asked(rt, alloc, core, incarnation)
}

#[test]
fn a_restart_forgets(rt: HostRuntime) {
    let mut watcher = must(&rt, core(&rt, rt.alloc(), PAIR, 1));
    watcher.accept(first_of(&rt, rt.alloc(), PAIR));
    let before = evaluated(&rt, rt.alloc(), &mut watcher);
    let mut watcher = restarted(&rt, rt.alloc(), watcher, 2);
    let found = (watcher.incarnation(), held(&watcher));
    equal(&rt, "incarnation, held", &found, &(2, None));
    let after = evaluated(&rt, rt.alloc(), &mut watcher);
    for &(frame, incarnation, from) in &[(&before, 1, Some((1, 1))), (&after, 2, None)] {
        let name = (frame.name().incarnation, frame.name().number);
        equal(&rt, "name", &name, &(incarnation, 1));
        let taken = frame.evaluation().takes().first().map(|take| take.from);
        equal(&rt, "taken", &taken, &Some(from));
    }
    let (before, after) = (before.evaluation().before(), after.evaluation().before());
    holds(&rt, "from the first state", after.same(before));
}

/// The second restart has no evaluation before it, and keeps what the first kept.
#[test]
fn restarts_keep_what_is_retained(rt: HostRuntime) {
    let alloc = rt.alloc();
    let (on, off) = (Value::Bool(true), Value::Bool(false));
    let mut hold = must(&rt, core(&rt, alloc, HOLD, 0));
    let frame = evaluated(&rt, alloc, &mut hold);
    equal(&rt, "set", &frame.outputs().values(), &[on, on].as_slice());
    let hold = restarted(&rt, alloc, hold, 2);
    let mut hold = restarted(&rt, alloc, hold, 3);
    for &number in &[1, 2] {
        let frame = evaluated_with(&rt, alloc, &mut hold, "%IX0=0");
        let name = (frame.name().incarnation, frame.name().number);
        equal(&rt, "name", &name, &(3, number));
        let outputs = frame.outputs().values();
        equal(&rt, "kept", &outputs, &[on, off].as_slice());
    }
}

/// Of a core by reference: this one stays as it is.
#[test]
fn a_core_can_be_restarted_beside_the_old_one(rt: HostRuntime) {
    let alloc = rt.alloc();
    let (on, off) = (Value::Bool(true), Value::Bool(false));
    let mut hold = must(&rt, core(&rt, alloc, HOLD, 0));
    evaluated(&rt, alloc, &mut hold);
    let mut other = must(&rt, hold.restarted(alloc, 2));
    let stayed = evaluated_with(&rt, alloc, &mut hold, "%IX0=0");
    let made = evaluated_with(&rt, alloc, &mut other, "%IX0=0");
    for &(frame, name, outputs) in &[(&stayed, (1, 2), [on, on]), (&made, (2, 1), [on, off])] {
        let found = (frame.name().incarnation, frame.name().number);
        equal(&rt, "name", &found, &name);
        let values = frame.outputs().values();
        equal(&rt, "outputs", &values, &outputs.as_slice());
    }
}
