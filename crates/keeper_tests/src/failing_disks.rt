//! Raises over a disk of which each call fails in turn, and what is left when the power fails after each.

use crate::checks::{equal, holds, must};
use crate::disk::{Call, Left, Moment};
use crate::disk_files::DiskFiles;
use crate::file_contents::{FILE, disk_with, keeper_on};
use keepers::{Keeper, KeeperFault};
use std::alloc::Global;
use std::process::Abort;

/// What is left when the power fails is the number before or the next one; the next one alone if it was answered.
fn is_left_whole(rt: &impl Abort, files: &DiskFiles, answer: Result<u32, KeeperFault>) {
    let disk = must(rt, files.disk());
    for &left in &[Left::All, Left::NoNames, Left::NoBytes, Left::Nothing] {
        let bytes = disk.left(FILE, left);
        let is_old = bytes == Some(b"4\n") && answer.is_err();
        holds(
            rt,
            "a whole number is left",
            is_old || bytes == Some(b"5\n"),
        );
    }
}

/// The calls that a raise makes of a number of one digit.
const CALLS: [Call; 12] = [
    Call::Look,
    Call::Look,
    Call::Open,
    Call::Read,
    Call::Read,
    Call::Read,
    Call::Create,
    Call::Write,
    Call::Write,
    Call::SyncFile,
    Call::Rename,
    Call::SyncFolder,
];

#[test]
fn a_file_is_synced_before_it_is_renamed_and_its_folder_afterwards(rt: HostRuntime) {
    let files = disk_with(&rt, rt.alloc(), Some("4\n"));
    equal(&rt, "the answer", &keeper_on(&rt, &files).raise(), &Ok(5));
    is_left_whole(&rt, &files, Ok(5));
    let disk = must(&rt, files.disk());
    equal(&rt, "the calls", &disk.calls(), &CALLS.as_slice());
}

/// The fault of a raise of which this call fails.
fn fault_of(call: Call) -> KeeperFault {
    match call {
        Call::Look | Call::Open | Call::Read => KeeperFault::Unreadable,
        _ => KeeperFault::Unwritable,
    }
}

/// The call at a place fails: the fault is its own, a whole number is left, and the next raises go on from it.
fn fails_at(rt: &impl Abort, alloc: Global, place: usize, call: Call, moment: Moment) {
    let files = disk_with(rt, alloc, Some("4\n"));
    must(rt, files.disk()).fail(Some((place, moment)));
    let mut keeper = keeper_on(rt, &files);
    let answer = keeper.raise();
    equal(rt, "the fault", &answer, &Err(fault_of(call)));
    is_left_whole(rt, &files, answer);
    let is_replaced = must(rt, files.disk()).left(FILE, Left::All) == Some(b"5\n");
    must(rt, files.disk()).fail(None);
    let next = if is_replaced { 6 } else { 5 };
    equal(rt, "the same keeper", &keeper.raise(), &Ok(next));
    equal(
        rt,
        "another one",
        &keeper_on(rt, &files).raise(),
        &Ok(next + 1),
    );
}

#[test]
fn each_call_fails_in_turn(rt: HostRuntime) {
    for (place, &call) in CALLS.iter().enumerate() {
        for &moment in &[Moment::Before, Moment::After] {
            fails_at(&rt, rt.alloc(), place, call, moment);
        }
    }
}
