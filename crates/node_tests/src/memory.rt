//! What a run reports where memory is wanting. With memory enough these pass as well; `tests/allocations` lets each allocation of theirs fail.

use crate::checks::{equal, holds};
use crate::gates::CountingGate;
use crate::runs::{Ask, is_made_again, keepers_of, pair, run};
use node::{Cause, Report};
use std::process::Abort;

/// No evaluation was a misfit, and each resource that stopped had a fault for want of memory before.
fn tells_of_memory_alone(rt: &impl Abort, report: &Report) {
    let faults = report.node_faults.as_slice();
    for fault in faults {
        holds(rt, "no misfit", fault.cause != Cause::Misfit);
        let is_told = faults.iter().any(|other| {
            let is_before = other.resource == fault.resource && other.ticket < fault.ticket;
            is_before && other.cause == Cause::Memory
        });
        let is_stopped = fault.cause == Cause::Stopped;
        holds(rt, "stopped behind a fault", !is_stopped || is_told);
    }
}

#[test]
fn a_run_where_memory_is_wanting_tells_of_memory_alone(rt: HostRuntime) {
    let alloc = rt.alloc();
    let asks = [
        Ask::Evaluate(0, 0, true),
        Ask::Restart(0),
        Ask::Evaluate(0, 0, true),
        Ask::Evaluate(1, 0, false),
        Ask::Evaluate(0, 0, true),
        Ask::Evaluate(1, 0, false),
    ];
    let gate = CountingGate::new(10_000_000);
    let keepers = keepers_of(&rt, alloc, 2, 0);
    let report = run(&rt, alloc, &asks, keepers, &gate, u32::MAX);
    equal(&rt, "told of each command once", &gate.told(), &0x111_1110);
    tells_of_memory_alone(&rt, &report);
    is_made_again(&rt, alloc, &pair(&rt, alloc), &report, u32::MAX);
}
