//! What a run of threads reports.

use crate::checks::{equal, must};
use crate::gates::{ClosedToFirst, PairGate};
use crate::runs::{Ask, Told, has_told, keepers_of, pair, run};
use crate::test_keepers::OnceKeeper;
use node::{Cause, FreeGate, PacedGate, RunFault, run_threads};
use std_blocks::Value;

const TURNS: u64 = 10_000_000;

/// The counter is evaluated, and then its watcher.
const COUNT_AND_WATCH: &[Ask] = &[Ask::Evaluate(0, 0, true), Ask::Evaluate(1, 0, false)];

const ONE: Option<Value> = Some(Value::Int(1));

/// Both evaluations are made, the second from the first.
const BOTH: Told = Told {
    entries: &[(0, (1, 1), None, ONE), (1, (1, 1), Some((1, 1)), ONE)],
    unanswered: &[],
    faults: &[],
    kinds: "EDE",
};

/// No evaluation has a number above the limit.
const SPENT: Told = Told {
    entries: &[(0, (1, 1), None, ONE)],
    unanswered: &[2],
    faults: &[(0, 2, Cause::NumbersSpent)],
    kinds: "E",
};

/// Numbers begin again after a restart.
const RESTARTED: Told = Told {
    entries: &[(0, (1, 1), None, ONE), (0, (2, 1), None, ONE)],
    unanswered: &[],
    faults: &[],
    kinds: "ERE",
};

const ZERO: Option<Value> = Some(Value::Int(0));

/// The watcher restarts between its evaluations.
const WATCHER_RESTARTS: &[Ask] = &[
    Ask::Evaluate(0, 0, true),
    Ask::Evaluate(1, 0, false),
    Ask::Restart(1),
    Ask::Evaluate(1, 0, false),
    Ask::Evaluate(0, 0, false),
    Ask::Evaluate(1, 0, false),
];

/// It takes nothing until the counter has heard of that.
const HEARD_OF: Told = Told {
    entries: &[
        (0, (1, 1), None, ONE),
        (1, (1, 1), Some((1, 1)), ONE),
        (1, (2, 1), None, ZERO),
        (0, (1, 2), None, ONE),
        (1, (2, 2), Some((1, 2)), ONE),
    ],
    unanswered: &[],
    faults: &[],
    kinds: "EDEREHEDE",
};

/// The watcher restarts, and then the counter, which forgets what it heard.
const BOTH_RESTART: &[Ask] = &[
    Ask::Restart(1),
    Ask::Restart(0),
    Ask::Evaluate(1, 0, false),
    Ask::Evaluate(0, 0, false),
    Ask::Evaluate(1, 0, false),
];

/// The watcher answers the counter, so each has heard of the other.
const ANSWERED: Told = Told {
    entries: &[
        (1, (2, 1), None, ZERO),
        (0, (2, 1), None, ZERO),
        (1, (2, 2), Some((2, 1)), ZERO),
    ],
    unanswered: &[],
    faults: &[],
    kinds: "RRHEHEDE",
};

/// A task that isn't there is not evaluated.
const NO_TASK: Told = Told {
    entries: &[],
    unanswered: &[1],
    faults: &[(0, 1, Cause::NoSuchTask)],
    kinds: "",
};

/// A command that isn't issued is not obeyed.
const NOT_ISSUED: Told = Told {
    entries: &[(0, (1, 1), None, ONE)],
    unanswered: &[2],
    faults: &[(1, 2, Cause::OutOfTurns)],
    kinds: "E",
};

/// A command that doesn't pass is not obeyed.
const NOT_PASSED: Told = Told {
    entries: &[(1, (1, 1), None, Some(Value::Int(0)))],
    unanswered: &[1],
    faults: &[(0, 1, Cause::OutOfTurns)],
    kinds: "E",
};

/// A resource whose keeper fails goes on in its incarnation.
const NOT_RESTARTED: Told = Told {
    entries: &[
        (0, (1, 1), None, ONE),
        (0, (1, 2), None, ONE),
        (1, (1, 1), Some((1, 2)), ONE),
    ],
    unanswered: &[],
    faults: &[(0, 2, Cause::Keeper)],
    kinds: "EEDE",
};

/// Turns, greatest number, commands, and what is told.
const PACED: &[(u64, u32, &[Ask], Told)] = &[
    (TURNS, u32::MAX, COUNT_AND_WATCH, BOTH),
    (
        TURNS,
        1,
        &[Ask::Evaluate(0, 0, true), Ask::Evaluate(0, 0, true)],
        SPENT,
    ),
    (
        TURNS,
        u32::MAX,
        &[
            Ask::Evaluate(0, 0, true),
            Ask::Restart(0),
            Ask::Evaluate(0, 0, true),
        ],
        RESTARTED,
    ),
    (TURNS, u32::MAX, &[Ask::Evaluate(0, 7, false)], NO_TASK),
    (0, u32::MAX, COUNT_AND_WATCH, NOT_ISSUED),
];

#[test]
fn paced_runs_are_told(rt: HostRuntime) {
    let alloc = rt.alloc();
    for &(turns, max_number, asks, told) in PACED {
        let keepers = keepers_of(&rt, alloc, 2, 0);
        let gate = PacedGate::new(turns);
        let report = run(&rt, alloc, asks, keepers, &gate, max_number);
        has_told(&rt, alloc, &report, max_number, &told);
    }
}

/// Commands, what is told, and what each entry has heard.
const HEARINGS: &[(&[Ask], Told, &[[u32; 2]])] = &[
    (
        WATCHER_RESTARTS,
        HEARD_OF,
        &[[1, 1], [1, 1], [1, 2], [1, 2], [1, 2]],
    ),
    (BOTH_RESTART, ANSWERED, &[[2, 2], [2, 2], [2, 2]]),
];

#[test]
fn restarts_are_heard_of(rt: HostRuntime) {
    let alloc = rt.alloc();
    for &(asks, told, heard) in HEARINGS {
        let keepers = keepers_of(&rt, alloc, 2, 0);
        let gate = PacedGate::new(TURNS);
        let report = run(&rt, alloc, asks, keepers, &gate, u32::MAX);
        has_told(&rt, alloc, &report, u32::MAX, &told);
        for (frame, wanted) in report.book.entries().iter().zip(heard) {
            let found = frame.evaluation().heard();
            equal(&rt, "heard", &found, &wanted.as_slice());
        }
    }
}

#[test]
fn both_resources_are_served_at_once(rt: HostRuntime) {
    let alloc = rt.alloc();
    let keepers = keepers_of(&rt, alloc, 2, 0);
    let gate = PairGate::new();
    let report = run(&rt, alloc, COUNT_AND_WATCH, keepers, &gate, u32::MAX);
    let counts = (
        report.book.entries().len(),
        report.unanswered.as_slice().len(),
        report.node_faults.as_slice().len(),
    );
    equal(&rt, "entries, unanswered, faults", &counts, &(2, 0, 0));
}

#[test]
fn a_keeper_that_is_spent_ends_the_run(rt: HostRuntime) {
    let alloc = rt.alloc();
    let plant = pair(&rt, alloc);
    let keepers = keepers_of(&rt, alloc, 2, u32::MAX);
    assert!(rt; keepers.len() == plant.resources());
    let report = run_threads(&rt, alloc, plant, &[], keepers, &FreeGate, 1);
    equal(&rt, "fault", &report.err(), &Some(RunFault::Keeper));
}

#[test]
fn a_resource_whose_keeper_fails_goes_on(rt: HostRuntime) {
    let alloc = rt.alloc();
    let asks = [
        Ask::Evaluate(0, 0, true),
        Ask::Restart(0),
        Ask::Evaluate(0, 0, false),
        Ask::Evaluate(1, 0, false),
    ];
    let mut keepers = Vec::new(alloc);
    for _resource in 0..2 {
        must(&rt, keepers.push(OnceKeeper::new(alloc)));
    }
    let gate = PacedGate::new(TURNS);
    let report = run(&rt, alloc, &asks, keepers, &gate, u32::MAX);
    has_told(&rt, alloc, &report, u32::MAX, &NOT_RESTARTED);
}

#[test]
fn a_command_that_does_not_pass_is_not_obeyed(rt: HostRuntime) {
    let alloc = rt.alloc();
    let keepers = keepers_of(&rt, alloc, 2, 0);
    let gate = ClosedToFirst::new(TURNS);
    let report = run(&rt, alloc, COUNT_AND_WATCH, keepers, &gate, u32::MAX);
    has_told(&rt, alloc, &report, u32::MAX, &NOT_PASSED);
}
