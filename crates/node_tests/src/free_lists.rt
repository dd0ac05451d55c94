//! Lists of commands drawn by lot, restarts among them, obeyed all at once. What the report has is made again. That it agrees with its journals and commands is proved.

use crate::checks::{equal, holds, must};
use crate::drawn::{drawn_asks, fan, ring};
use crate::gates::SlowFirst;
use crate::runs::{Ask, commands_of, is_made_again, keepers_of, pair, plant_of, run_on};
use node::{Command, FreeGate, Gate, Report, Step};
use plant::{Plant, plan};
use std::alloc::Global;
use std::process::Abort;
use std::sync::{Arc, Wait};
use std::thread::Threads;
use worked_texts::PAIR;

/// Each command is done, since there are as many entries and restarts as commands, and nothing was wanting.
fn is_all_done(rt: &impl Abort, commands: &[Command], report: &Report) {
    let entries = report.book.entries();
    let mut done = entries.len();
    for journal in report.journals.as_slice() {
        for step in journal.steps.as_slice() {
            if let Step::Restarted { .. } = step {
                done = done.saturating_add(1);
            }
        }
    }
    equal(rt, "how many are done", &done, &commands.len());
    let (unanswered, faults) = (report.unanswered.as_slice(), report.node_faults.as_slice());
    let wanting = (unanswered.len(), faults.len());
    equal(rt, "unanswered, faults", &wanting, &(0, 0));
}

/// What a resource received are entries of others.
fn received_entries(rt: &impl Abort, report: &Report) {
    let entries = report.book.entries();
    for journal in report.journals.as_slice() {
        for step in journal.steps.as_slice() {
            if let Step::Took(frame) = step {
                let is_anothers = frame.name().task.resource != journal.resource;
                let is_entry = entries.iter().any(|entry| entry.same(frame));
                holds(rt, "it is another's entry", is_anothers && is_entry);
            }
        }
    }
}

/// Five hundred lists for each of two plants, in which one command in five is a restart.
#[test]
fn drawn_lists_are_done_and_made_again(rt: HostRuntime) {
    let alloc = rt.alloc();
    let ring = ring(&rt, alloc, 3);
    for &text in &[PAIR, ring.as_str()] {
        let plant = plant_of(&rt, alloc, text);
        let resources = plant.resources();
        let mut seed = 16;
        for _list in 0..500 {
            let asks = drawn_asks(&rt, alloc, &mut seed, resources, 5);
            let commands = commands_of(&rt, alloc, asks.as_slice());
            let commands = commands.as_slice();
            let keepers = keepers_of(&rt, alloc, resources, 0);
            let report = run_on(&rt, alloc, &plant, commands, keepers, &FreeGate, u32::MAX);
            is_all_done(&rt, commands, &report);
            received_entries(&rt, &report);
            is_made_again(&rt, alloc, &plant, &report, u32::MAX);
        }
    }
}

/// These are all done on this plant, without restarts.
fn all_are_done<R: Threads + Wait + Sync + Abort, G: Gate>(
    rt: &R,
    alloc: Global,
    plant: &Arc<Plant>,
    asks: &[Ask],
    gate: &G,
) {
    let commands = commands_of(rt, alloc, asks);
    let commands = commands.as_slice();
    let keepers = keepers_of(rt, alloc, plant.resources(), 0);
    let report = run_on(rt, alloc, plant, commands, keepers, gate, u32::MAX);
    is_all_done(rt, commands, &report);
}

/// Many commands, every other one to the first resource, from which all others take. An evaluation that were sent before its entry would be taken before it, as a misfit.
#[test]
fn what_is_sent_is_entered_before(rt: HostRuntime) {
    let alloc = rt.alloc();
    let plant = plant_of(&rt, alloc, fan(&rt, alloc, 16).as_str());
    let mut asks = Vec::new(alloc);
    for place in 0..2_000 {
        must(&rt, asks.push(Ask::Evaluate(0, 0, true)));
        must(&rt, asks.push(Ask::Evaluate(1 + place % 15, 0, true)));
    }
    all_are_done(&rt, alloc, &plant, asks.as_slice(), &FreeGate);
}

/// The plan of a second, while the first command lets others go first 100,000 times: no inbox is gone before what comes late is sent.
#[test]
fn nothing_is_lost_while_a_resource_is_slow(rt: HostRuntime) {
    let alloc = rt.alloc();
    let plant = pair(&rt, alloc);
    let mut asks = Vec::new(alloc);
    for due in &must(&rt, plan(alloc, &plant, 1_000)) {
        must(
            &rt,
            asks.push(Ask::Evaluate(due.task.resource, due.task.task, true)),
        );
    }
    equal(&rt, "how many commands", &asks.len(), &150);
    all_are_done(&rt, alloc, &plant, asks.as_slice(), &SlowFirst);
}
