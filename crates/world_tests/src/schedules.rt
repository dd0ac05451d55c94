//! Schedules as texts: what they write, and what is left where the writer or the text fails.

use crate::checks::{equal, holds, must};
use crate::halting::Halting;
use crate::runs::plant_of;
use plant::Plant;
use std::alloc::Global;
use std::process::Abort;
use std::sync::Arc;
use worked_texts::{HOLD, PAIR};
use world::{SimFault, simulate};

/// A producer restarts, and its message reaches the watcher.
const RESTARTED: &str = "\
EVAL R1.FAST 10 %IX0=0
EVAL R1.FAST 10 %IX0=1
DELIVER 2 R2
RESTART R1
EVAL R1.FAST 10
DELIVER 3 R2
EVAL R2.SLOW 20
";

const WRITTEN: &str = "\
EVAL 1 R1.FAST 1.1 TAKES - GIVES A.N=0 A.FULL=0
EVAL 2 R1.FAST 1.2 TAKES - GIVES A.N=1 A.FULL=0
DELIVER 2 R2 taken
RESTART R1 2
EVAL 3 R1.FAST 2.1 TAKES - GIVES A.N=0 A.FULL=0
DELIVER 3 R2 taken
EVAL 4 R2.SLOW 1.1 TAKES R1.FAST=2.1 GIVES B.SEEN=0 B.HIT=0
";

/// The schedule is answered so, and the writer has this much of what it writes in all.
fn writes(
    rt: &impl Abort,
    alloc: Global,
    plant: &Arc<Plant>,
    schedule: &str,
    mut out: Halting,
    answer: Result<(), SimFault>,
    text: &[u8],
) {
    let shared = must(rt, Arc::try_clone(plant));
    let found = simulate(alloc, shared, schedule, u32::MAX, &mut out);
    equal(rt, "answer", &found, &answer);
    holds(rt, "the text is written", out.taken.as_slice() == text);
}

/// A writer without room has the first bytes.
#[test]
fn a_schedule_is_written_as_far_as_it_goes(rt: HostRuntime) {
    let alloc = rt.alloc();
    let plant = plant_of(&rt, alloc, PAIR);
    let written = WRITTEN.as_bytes();
    let all = written.len();
    let cut = Err(SimFault::Write);
    for &(room, step, fails, answer) in &[
        (all, all, true, Ok(())),
        (all, 1, false, Ok(())),
        (all.saturating_sub(1), all, true, cut),
        (all.saturating_sub(1), 1, false, cut),
        (80, all, false, cut),
        (0, all, true, cut),
    ] {
        let out = must(&rt, Halting::new(alloc, room, step, fails));
        let first = written.get(..room).unwrap_or_default();
        writes(&rt, alloc, &plant, RESTARTED, out, answer, first);
    }
    for room in 0..all {
        let out = must(&rt, Halting::new(alloc, room, all, true));
        let first = written.get(..room).unwrap_or_default();
        writes(&rt, alloc, &plant, RESTARTED, out, cut, first);
    }
    let bad = "DELIVER 99 R2\n# a comment\nEVAL R9.FAST 10\nEVAL R1.FAST\nEVAL R1.FAST 10\n";
    let refusals = b"REFUSED 1 NoSuchMessage\nREFUSED 2 NoSuchResource\n";
    let out = must(&rt, Halting::new(alloc, usize::MAX, usize::MAX, true));
    let answer = Err(SimFault::Syntax { line: 4 });
    writes(&rt, alloc, &plant, bad, out, answer, refusals.as_slice());
}

/// What a task retains outlives one restart and the next; what it doesn't is FALSE again.
#[test]
fn a_retained_variable_outlives_restarts(rt: HostRuntime) {
    let alloc = rt.alloc();
    let plant = plant_of(&rt, alloc, HOLD);
    let schedule = "EVAL R1.TICK 10 %IX0=1\nRESTART R1\nRESTART R1\nEVAL R1.TICK 10\n";
    let written = b"\
EVAL 1 R1.TICK 1.1 TAKES - GIVES H.Q=1 H.L=1
RESTART R1 2
RESTART R1 3
EVAL 2 R1.TICK 3.1 TAKES - GIVES H.Q=1 H.L=0
";
    let out = must(&rt, Halting::new(alloc, usize::MAX, usize::MAX, true));
    writes(
        &rt,
        alloc,
        &plant,
        schedule,
        out,
        Ok(()),
        written.as_slice(),
    );
}
