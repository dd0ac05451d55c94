//! What is retained over restarts, and over runs.

use crate::checks::{equal, holds, must};
use crate::gates::MeetingGate;
use crate::runs::{
    Ask, Told, commands_of, has_told, has_told_on, keepers_of, plant_of, run, run_on, run_over,
};
use crate::test_keepers::{
    ForgetfulKeeper, Meeting, MeetingKeeper, NamedFile, OnceKeeper, SharedFolder, SharedKeeper,
};
use keepers::FileKeeper;
use node::{Cause, FreeGate, Keeper, MemoryKeeper, PacedGate, Report, RunFault, run_threads};
use std::alloc::Global;
use std::process::Abort;
use std::sync::{Arc, Mutex, Wait};
use std::thread::Threads;
use std_blocks::Value;

const TURNS: u64 = 10_000_000;

const OFF: Value = Value::Bool(false);

const ON: Value = Value::Bool(true);

const ONE: Option<Value> = Some(Value::Int(1));

/// A task whose input sets a retained variable, which it gives, and one that isn't retained.
const HOLD: &str = "\
PROGRAM HOLD
VAR_INPUT GO : BOOL; END_VAR
VAR_OUTPUT Q, L : BOOL; END_VAR
VAR RETAIN M : BOOL; END_VAR
VAR K : BOOL; END_VAR
|  GO    M     K
+--| |---(S)---(S)
|  M     Q
+--| |---( )
|  K     L
+--| |---( )
END_PROGRAM
CONFIGURATION C
  RESOURCE R1 ON NODE
    TASK TICK(INTERVAL := T#10ms, PRIORITY := 0);
    PROGRAM H WITH TICK : HOLD(GO := %IX0);
  END_RESOURCE
END_CONFIGURATION
";

/// Two tasks of one resource, each with a retained variable, and one of another resource that watches the first.
const WATCHED: &str = "\
PROGRAM HOLD
VAR_INPUT GO : BOOL; END_VAR
VAR_OUTPUT Q : BOOL; END_VAR
VAR RETAIN M : BOOL; END_VAR
|  GO    M
+--| |---(S)
|  M     Q
+--| |---( )
END_PROGRAM
PROGRAM WATCH
VAR_INPUT Q : BOOL; END_VAR
VAR_OUTPUT SEEN : BOOL; END_VAR
|  Q     SEEN
+--| |---( )
END_PROGRAM
CONFIGURATION C
  RESOURCE R1 ON NODE
    TASK FIRST(INTERVAL := T#10ms, PRIORITY := 0);
    TASK SECOND(INTERVAL := T#10ms, PRIORITY := 1);
    PROGRAM A WITH FIRST : HOLD(GO := %IX0);
    PROGRAM B WITH SECOND : HOLD(GO := %IX0);
  END_RESOURCE
  RESOURCE R2 ON NODE
    TASK SLOW(INTERVAL := T#20ms, PRIORITY := 0);
    PROGRAM C WITH SLOW : WATCH(Q := R1.A.Q);
  END_RESOURCE
END_CONFIGURATION
";

/// All values that each entry gave.
fn gave(rt: &impl Abort, report: &Report, wanted: &[&[Value]]) {
    let entries = report.book.entries();
    equal(rt, "how many entries", &entries.len(), &wanted.len());
    for (entry, values) in entries.iter().zip(wanted) {
        equal(rt, "given", &entry.outputs().values(), values);
    }
}

#[test]
fn retained_variables_alone_outlive_restarts(rt: HostRuntime) {
    let alloc = rt.alloc();
    let plant = plant_of(&rt, alloc, HOLD);
    let asks = [
        Ask::Evaluate(0, 0, true),
        Ask::Restart(0),
        Ask::Restart(0),
        Ask::Evaluate(0, 0, false),
    ];
    let commands = commands_of(&rt, alloc, &asks);
    let keepers = keepers_of(&rt, alloc, 1, 0);
    let gate = PacedGate::new(TURNS);
    let report = run_on(&rt, alloc, &plant, commands.as_slice(), keepers, &gate, 9);
    gave(&rt, &report, &[&[ON, ON], &[ON, OFF]]);
    let told = Told {
        entries: &[(0, (1, 1), None, Some(ON)), (0, (3, 1), None, Some(ON))],
        unanswered: &[],
        faults: &[],
        kinds: "ERRE",
    };
    has_told_on(&rt, alloc, &plant, &report, 9, &told);
}

/// Two runs over what two keepers have kept: in the first one the second task of R1 is set alone, and it alone is on in the second run.
fn runs_over<R: Threads + Wait + Sync + Abort, K: Keeper>(
    rt: &R,
    alloc: Global,
    first: Vec<K>,
    second: Vec<K>,
) {
    let plant = plant_of(rt, alloc, WATCHED);
    let gate = PacedGate::new(TURNS);
    let commands = commands_of(rt, alloc, &[Ask::Evaluate(0, 1, true)]);
    let report = run_on(rt, alloc, &plant, commands.as_slice(), first, &gate, 9);
    gave(rt, &report, &[&[ON]]);
    let asks = [Ask::Evaluate(0, 0, false), Ask::Evaluate(0, 1, false)];
    let commands = commands_of(rt, alloc, &asks);
    let gate = PacedGate::new(TURNS);
    let report = run_on(rt, alloc, &plant, commands.as_slice(), second, &gate, 9);
    gave(rt, &report, &[&[OFF], &[ON]]);
    let told = Told {
        entries: &[(0, (2, 1), None, Some(OFF)), (0, (2, 1), None, Some(ON))],
        unanswered: &[],
        faults: &[],
        kinds: "EE",
    };
    has_told_on(rt, alloc, &plant, &report, 9, &told);
}

#[test]
fn a_second_run_begins_with_what_a_keeper_in_memory_kept(rt: HostRuntime) {
    let alloc = rt.alloc();
    let (mut first, mut second) = (Vec::new(alloc), Vec::new(alloc));
    for _resource in 0..2 {
        let kept = Mutex::new(MemoryKeeper::new(alloc, 0));
        let shared = must(&rt, Arc::new(alloc, kept));
        let again = must(&rt, Arc::try_clone(&shared));
        must(&rt, first.push(SharedKeeper::new(shared)));
        must(&rt, second.push(SharedKeeper::new(again)));
    }
    runs_over(&rt, alloc, first, second);
}

/// What a file holds, if there is one of this name.
fn bytes_of<'a>(files: &'a [NamedFile], name: &str) -> Option<&'a [u8]> {
    let found = files.iter().find(|file| file.name.as_str() == name);
    found.map(|file| file.bytes.as_slice())
}

/// The files of both resources: an incarnation each, and what each retains.
fn holds_what_was_kept(rt: &impl Abort, files: &[NamedFile]) {
    for &(name, text) in &[("R1.1.ret", "B.M=1\n"), ("R1.0.ret", "A.M=0\n")] {
        equal(rt, name, &bytes_of(files, name), &Some(text.as_bytes()));
    }
    equal(rt, "how many files", &files.len(), &4);
}

#[test]
fn a_second_run_begins_with_what_a_keeper_of_files_kept(rt: HostRuntime) {
    let alloc = rt.alloc();
    let files = must(&rt, Arc::new(alloc, Mutex::new(Vec::new(alloc))));
    let keepers = || {
        let mut keepers = Vec::new(alloc);
        for name in &["R1", "R2"] {
            let shared = must(&rt, Arc::try_clone(&files));
            let folder = SharedFolder::new(alloc, shared);
            let keeper = must(&rt, FileKeeper::new(alloc, folder, name));
            must(&rt, keepers.push(keeper));
        }
        keepers
    };
    runs_over(&rt, alloc, keepers(), keepers());
    let files = must(&rt, files.try_lock().ok_or("no lock"));
    holds_what_was_kept(&rt, files.as_slice());
}

/// The watcher of a task is evaluated while that task's retained variables are being kept: it can't have been sent anything yet.
#[test]
fn variables_are_kept_before_the_evaluation_is_sent(rt: HostRuntime) {
    let alloc = rt.alloc();
    let plant = plant_of(&rt, alloc, WATCHED);
    let meeting = must(&rt, Arc::new(alloc, Meeting::new()));
    let mut keepers = Vec::new(alloc);
    for _resource in 0..2 {
        let kept = MemoryKeeper::new(alloc, 0);
        let meeting = must(&rt, Arc::try_clone(&meeting));
        must(&rt, keepers.push(MeetingKeeper { kept, meeting }));
    }
    let asks = [Ask::Evaluate(0, 0, true), Ask::Evaluate(1, 0, false)];
    let commands = commands_of(&rt, alloc, &asks);
    let gate = MeetingGate { meeting };
    let report = run_on(&rt, alloc, &plant, commands.as_slice(), keepers, &gate, 9);
    let told = Told {
        entries: &[(0, (1, 1), None, Some(ON)), (1, (1, 1), None, Some(OFF))],
        unanswered: &[],
        faults: &[],
        kinds: "EE",
    };
    has_told_on(&rt, alloc, &plant, &report, 9, &told);
}

fn once_keepers(rt: &impl Abort, alloc: Global) -> Vec<OnceKeeper> {
    let mut keepers = Vec::new(alloc);
    for _resource in 0..2 {
        must(rt, keepers.push(OnceKeeper::new(alloc)));
    }
    keepers
}

/// The evaluation stands and is sent, the fault is its command's, and the next command is obeyed.
#[test]
fn an_evaluation_stands_whose_variables_are_not_kept(rt: HostRuntime) {
    let alloc = rt.alloc();
    let plant = plant_of(&rt, alloc, WATCHED);
    let asks = [
        Ask::Evaluate(0, 0, true),
        Ask::Evaluate(1, 0, false),
        Ask::Evaluate(0, 0, false),
    ];
    let commands = commands_of(&rt, alloc, &asks);
    let keepers = once_keepers(&rt, alloc);
    let gate = PacedGate::new(TURNS);
    let report = run_on(&rt, alloc, &plant, commands.as_slice(), keepers, &gate, 9);
    let told = Told {
        entries: &[
            (0, (1, 1), None, Some(ON)),
            (1, (1, 1), Some((1, 1)), Some(ON)),
            (0, (1, 2), None, Some(ON)),
        ],
        unanswered: &[],
        faults: &[(0, 1, Cause::Keeper), (0, 3, Cause::Keeper)],
        kinds: "EDEE",
    };
    has_told_on(&rt, alloc, &plant, &report, 9, &told);
}

/// A second run over the keepers of the first one is in a later incarnation, and begins with what was kept.
#[test]
fn keepers_are_handed_on_from_run_to_run(rt: HostRuntime) {
    let alloc = rt.alloc();
    let plant = plant_of(&rt, alloc, HOLD);
    let commands = commands_of(&rt, alloc, &[Ask::Evaluate(0, 0, true), Ask::Restart(0)]);
    let keepers = keepers_of(&rt, alloc, 1, 0);
    let gate = PacedGate::new(TURNS);
    let (_, keepers) = run_over(&rt, alloc, &plant, commands.as_slice(), keepers, &gate, 9);
    let commands = commands_of(&rt, alloc, &[Ask::Evaluate(0, 0, false)]);
    let gate = PacedGate::new(TURNS);
    let (report, _) = run_over(&rt, alloc, &plant, commands.as_slice(), keepers, &gate, 9);
    let told = Told {
        entries: &[(0, (3, 1), None, Some(ON))],
        unanswered: &[],
        faults: &[],
        kinds: "E",
    };
    has_told_on(&rt, alloc, &plant, &report, 9, &told);
}

/// The pair retains nothing, so a keeper that keeps nothing isn't asked to.
#[test]
fn nothing_is_kept_where_nothing_is_retained(rt: HostRuntime) {
    let alloc = rt.alloc();
    let asks = [Ask::Evaluate(0, 0, true), Ask::Evaluate(1, 0, false)];
    let keepers = once_keepers(&rt, alloc);
    let report = run(&rt, alloc, &asks, keepers, &PacedGate::new(TURNS), 9);
    let told = Told {
        entries: &[(0, (1, 1), None, ONE), (1, (1, 1), Some((1, 1)), ONE)],
        unanswered: &[],
        faults: &[],
        kinds: "EDE",
    };
    has_told(&rt, alloc, &report, 9, &told);
}

#[test]
fn a_keeper_that_tells_nothing_ends_the_run(rt: HostRuntime) {
    let alloc = rt.alloc();
    let plant = plant_of(&rt, alloc, HOLD);
    let mut keepers = Vec::new(alloc);
    must(&rt, keepers.push(ForgetfulKeeper::new()));
    assert!(rt; keepers.len() == plant.resources());
    let report = run_threads(&rt, alloc, plant, &[], keepers, &FreeGate, 1);
    equal(&rt, "fault", &report.err(), &Some(RunFault::Keeper));
}
