//! To whom an evaluation is sent, and that each command has its own fault.

use crate::checks::{equal, holds};
use crate::gates::FirstUnissued;
use crate::runs::{Ask, Told, commands_of, has_told, keepers_of, plant_of, run, run_on};
use node::{Cause, FreeGate, Journal, PacedGate, Step};
use std_blocks::Value;

const TURNS: u64 = 10_000_000;

/// R2's second task takes from R3 and then from R1. R1 and R3 take nothing.
const THREE: &str = "\
PROGRAM GIVE
VAR_INPUT I : BOOL; END_VAR
VAR_OUTPUT O : BOOL; END_VAR
|  I     O
+--| |---( )
END_PROGRAM
PROGRAM BOTH
VAR_INPUT L : BOOL; M : BOOL; END_VAR
VAR_OUTPUT O : BOOL; END_VAR
|  L    M     O
+--| |--| |---( )
END_PROGRAM
CONFIGURATION THREE
  RESOURCE R1 ON NODE
    TASK K(INTERVAL := T#10ms, PRIORITY := 0);
    PROGRAM P WITH K : GIVE(I := %IX0);
  END_RESOURCE
  RESOURCE R2 ON NODE
    TASK K1(INTERVAL := T#10ms, PRIORITY := 0);
    TASK K2(INTERVAL := T#10ms, PRIORITY := 0);
    PROGRAM P WITH K1 : GIVE(I := %IX0);
    PROGRAM Q WITH K2 : BOTH(L := R3.P.O, M := R1.P.O);
  END_RESOURCE
  RESOURCE R3 ON NODE
    TASK K(INTERVAL := T#10ms, PRIORITY := 0);
    PROGRAM P WITH K : GIVE(I := %IX0);
  END_RESOURCE
END_CONFIGURATION
";

/// How many evaluations a resource received.
fn received(journal: &Journal) -> usize {
    journal
        .steps
        .as_slice()
        .iter()
        .filter(|step| matches!(step, Step::Took(_)))
        .count()
}

#[test]
fn an_evaluation_is_sent_to_those_that_take_it_alone(rt: HostRuntime) {
    let alloc = rt.alloc();
    let plant = plant_of(&rt, alloc, THREE);
    let asks = [
        Ask::Evaluate(0, 0, true),
        Ask::Evaluate(2, 0, true),
        Ask::Evaluate(1, 1, false),
    ];
    let commands = commands_of(&rt, alloc, &asks);
    let keepers = keepers_of(&rt, alloc, 3, 0);
    let gate = PacedGate::new(TURNS);
    let report = run_on(
        &rt,
        alloc,
        &plant,
        commands.as_slice(),
        keepers,
        &gate,
        u32::MAX,
    );
    let counts = [0, 2, 0];
    for (journal, wanted) in report.journals.as_slice().iter().zip(&counts) {
        equal(&rt, "received", &received(journal), wanted);
    }
    let entries = report.book.entries();
    equal(&rt, "how many entries", &entries.len(), &3);
    for frame in entries {
        for take in frame.evaluation().takes() {
            equal(&rt, "taken", &take.from, &Some((1, 1)));
        }
    }
}

/// Three commands for tasks that aren't there, two of them to one resource.
const NO_TASKS: Told = Told {
    entries: &[],
    unanswered: &[1, 2, 3],
    faults: &[
        (0, 1, Cause::NoSuchTask),
        (0, 2, Cause::NoSuchTask),
        (1, 3, Cause::NoSuchTask),
    ],
    kinds: "",
};

#[test]
fn each_command_has_its_own_fault(rt: HostRuntime) {
    let alloc = rt.alloc();
    let asks = [
        Ask::Evaluate(0, 7, false),
        Ask::Evaluate(0, 8, false),
        Ask::Evaluate(1, 7, false),
    ];
    let keepers = keepers_of(&rt, alloc, 2, 0);
    let report = run(&rt, alloc, &asks, keepers, &FreeGate, u32::MAX);
    has_told(&rt, alloc, &report, u32::MAX, &NO_TASKS);
}

/// The first command isn't issued, and the second is obeyed.
const SECOND_ALONE: Told = Told {
    entries: &[(1, (1, 1), None, Some(Value::Int(0)))],
    unanswered: &[1],
    faults: &[(0, 1, Cause::OutOfTurns)],
    kinds: "E",
};

#[test]
fn commands_behind_one_that_is_not_issued_are_issued(rt: HostRuntime) {
    let alloc = rt.alloc();
    let asks = [Ask::Evaluate(0, 0, true), Ask::Evaluate(1, 0, false)];
    let keepers = keepers_of(&rt, alloc, 2, 0);
    let report = run(&rt, alloc, &asks, keepers, &FirstUnissued, u32::MAX);
    has_told(&rt, alloc, &report, u32::MAX, &SECOND_ALONE);
}

#[test]
fn journals_begin_above_what_was_kept(rt: HostRuntime) {
    let alloc = rt.alloc();
    let keepers = keepers_of(&rt, alloc, 2, 6);
    let report = run(&rt, alloc, &[], keepers, &FreeGate, 1);
    for journal in report.journals.as_slice() {
        holds(&rt, "it begins in the next one", journal.first == 7);
    }
}
