//! What is told of each content of a task's file, and what is left of it where the disk fails.

use crate::checks::{equal, holds, must};
use crate::disk::{Call, Left, Moment};
use crate::disk_files::DiskFiles;
use crate::file_contents::{disk_holding, keeper_on};
use crate::retained::{FIRST, OTHERS, SOME, keep, keeping_code, tells};
use keepers::{BadLine, Keeper, KeeperFault};
use plant::TaskCode;
use std::alloc::Global;
use std::process::Abort;
use std_blocks::Value;

const FILE: &str = "D/R1.0.ret";

const SOME_TEXT: &str = "H.M=1\nH.N=-7\nH.T=T#250ms\n";

const OTHERS_TEXT: &str = "H.M=0\nH.N=32767\nH.T=T#4294967295ms\n";

/// Contents that are kept of the task, with their values.
const KEPT: [(Option<&str>, [Value; 3]); 5] = [
    (None, FIRST),
    (Some("H.M=0\nH.N=0\nH.T=T#0ms\n"), FIRST),
    (Some(SOME_TEXT), SOME),
    (Some(OTHERS_TEXT), OTHERS),
    (
        Some("H.M=1\nH.N=-32768\nH.T=T#10ms\n"),
        [Value::Bool(true), Value::Int(-32_768), Value::Time(10)],
    ),
];

#[test]
fn what_is_kept_is_told(rt: HostRuntime) {
    let code = keeping_code(&rt, rt.alloc());
    for &(content, values) in &KEPT {
        let files = disk_holding(&rt, rt.alloc(), FILE, content);
        tells(&rt, &mut keeper_on(&rt, &files), 0, &code, &values);
    }
}

/// The file holds this text, also when the power fails.
fn holds_text(rt: &impl Abort, files: &DiskFiles, text: &str) {
    let disk = must(rt, files.disk());
    let found = disk.left(FILE, Left::Nothing);
    equal(rt, "the file", &found, &Some(text.as_bytes()));
}

#[test]
fn what_is_handed_in_is_written(rt: HostRuntime) {
    let alloc = rt.alloc();
    let code = keeping_code(&rt, alloc);
    let files = must(&rt, DiskFiles::new(alloc));
    let mut keeper = keeper_on(&rt, &files);
    let kept = keep(&rt, alloc, &mut keeper, 0, &code, &SOME);
    equal(&rt, "kept", &kept, &Ok(()));
    holds_text(&rt, &files, SOME_TEXT);
    let kept = keep(&rt, alloc, &mut keeper, 0, &code, &OTHERS);
    equal(&rt, "kept", &kept, &Ok(()));
    holds_text(&rt, &files, OTHERS_TEXT);
}

const M: &str = "H.M=0 or 1";

const N: &str = "H.N=-32768 to 32767";

const T: &str = "H.T=T#0ms to T#4294967295ms";

const END: &str = "the end of the file";

/// Contents that aren't kept of the task: the first line that isn't, and what is to stand there.
const OTHER_CONTENTS: [(&str, usize, &str); 40] = [
    ("", 1, M),
    ("\n", 1, M),
    ("H.M=1", 1, M),
    ("H.M=1\n", 2, N),
    ("H.X=1\n", 1, M),
    ("G.M=1\nH.N=-7\nH.T=T#250ms\n", 1, M),
    ("h.M=1\nH.N=-7\nH.T=T#250ms\n", 1, M),
    ("H.m=1\nH.N=-7\nH.T=T#250ms\n", 1, M),
    ("H.M=TRUE\nH.N=-7\nH.T=T#250ms\n", 1, M),
    ("H.M=2\nH.N=-7\nH.T=T#250ms\n", 1, M),
    ("H.M=01\nH.N=-7\nH.T=T#250ms\n", 1, M),
    ("H.M=\nH.N=-7\nH.T=T#250ms\n", 1, M),
    (" H.M=1\nH.N=-7\nH.T=T#250ms\n", 1, M),
    ("H.M =1\nH.N=-7\nH.T=T#250ms\n", 1, M),
    ("H.M= 1\nH.N=-7\nH.T=T#250ms\n", 1, M),
    ("H.M=1 \nH.N=-7\nH.T=T#250ms\n", 1, M),
    ("H.M=1\r\nH.N=-7\r\nH.T=T#250ms\r\n", 1, M),
    ("\nH.M=1\nH.N=-7\nH.T=T#250ms\n", 1, M),
    ("H.N=-7\nH.M=1\nH.T=T#250ms\n", 1, M),
    ("H.M=1\nH.T=T#250ms\nH.N=-7\n", 2, N),
    ("H.M=1\nH.N=+7\nH.T=T#250ms\n", 2, N),
    ("H.M=1\nH.N=07\nH.T=T#250ms\n", 2, N),
    ("H.M=1\nH.N=-0\nH.T=T#250ms\n", 2, N),
    ("H.M=1\nH.N=-\nH.T=T#250ms\n", 2, N),
    ("H.M=1\nH.N=\nH.T=T#250ms\n", 2, N),
    ("H.M=1\nH.N=32768\nH.T=T#250ms\n", 2, N),
    ("H.M=1\nH.N=-32769\nH.T=T#250ms\n", 2, N),
    ("H.M=1\nH.N=T#7ms\nH.T=T#250ms\n", 2, N),
    ("H.M=1\nH.N=-7\n", 3, T),
    ("H.M=1\nH.N=-7\nH.T=T#250ms", 3, T),
    ("H.M=1\nH.N=-7\nH.T=250ms\n", 3, T),
    ("H.M=1\nH.N=-7\nH.T=250\n", 3, T),
    ("H.M=1\nH.N=-7\nH.T=t#250ms\n", 3, T),
    ("H.M=1\nH.N=-7\nH.T=T#250MS\n", 3, T),
    ("H.M=1\nH.N=-7\nH.T=T#0250ms\n", 3, T),
    ("H.M=1\nH.N=-7\nH.T=T#ms\n", 3, T),
    ("H.M=1\nH.N=-7\nH.T=T#4294967296ms\n", 3, T),
    ("H.M=1\nH.N=-7\nH.T=T#250ms\n\n", 4, END),
    ("H.M=1\nH.N=-7\nH.T=T#250ms\nH.X=1\n", 4, END),
    ("H.M=1\nH.N=-7\nH.T=T#250ms\nx", 4, END),
];

/// A content is unreadable and stays, and this is told of its first line that is at fault.
fn is_unreadable(rt: &impl Abort, code: &TaskCode, content: &str, alloc: Global) -> BadLine {
    let files = disk_holding(rt, alloc, FILE, Some(content));
    let mut keeper = keeper_on(rt, &files);
    let told = keeper.kept(0, code).err();
    equal(rt, "fault", &told, &Some(KeeperFault::Unreadable));
    holds_text(rt, &files, content);
    let found = must(rt, keeper.bad_line(0, code));
    must(rt, found.ok_or("no line is at fault"))
}

#[test]
fn any_other_content_is_unreadable_and_stays(rt: HostRuntime) {
    let code = keeping_code(&rt, rt.alloc());
    for &(content, line, expected) in &OTHER_CONTENTS {
        let bad = is_unreadable(&rt, &code, content, rt.alloc());
        equal(&rt, "line", &bad.line, &line);
        equal(&rt, "expected", &bad.expected.as_str(), &expected);
    }
}

/// What is left when the power fails is what was kept before or what was to be kept; that alone if it was answered.
fn is_left_whole(rt: &impl Abort, files: &DiskFiles, answer: Result<(), KeeperFault>) {
    let disk = must(rt, files.disk());
    for &left in &[Left::All, Left::NoNames, Left::NoBytes, Left::Nothing] {
        let bytes = disk.left(FILE, left);
        let is_old = bytes == Some(SOME_TEXT.as_bytes()) && answer.is_err();
        let is_new = bytes == Some(OTHERS_TEXT.as_bytes());
        holds(rt, "a whole text is left", is_old || is_new);
    }
}

/// The calls of a `keep` over a file, none of which fails.
fn calls_of_keep(rt: &impl Abort, alloc: Global) -> Vec<Call> {
    let code = keeping_code(rt, alloc);
    let files = disk_holding(rt, alloc, FILE, Some(SOME_TEXT));
    let answer = keep(rt, alloc, &mut keeper_on(rt, &files), 0, &code, &OTHERS);
    equal(rt, "kept", &answer, &Ok(()));
    is_left_whole(rt, &files, answer);
    let disk = must(rt, files.disk());
    must(rt, Vec::from_slice(alloc, disk.calls()))
}

#[test]
fn a_text_is_synced_before_it_is_renamed_and_its_folder_afterwards(rt: HostRuntime) {
    let calls = calls_of_keep(&rt, rt.alloc());
    let written = OTHERS_TEXT.len();
    equal(&rt, "how many calls", &calls.len(), &(written + 4));
    let are_writes = calls
        .iter()
        .skip(1)
        .take(written)
        .all(|call| *call == Call::Write);
    holds(&rt, "each byte is written", are_writes);
    equal(&rt, "the first", &calls.first(), &Some(&Call::Create));
    let last = [Call::SyncFile, Call::Rename, Call::SyncFolder];
    holds(&rt, "the last", calls.ends_with(&last));
}

/// The call at a place fails: a whole text is left, which is told then, and the next is kept.
fn fails_at(rt: &impl Abort, alloc: Global, place: usize, moment: Moment) {
    let code = keeping_code(rt, alloc);
    let files = disk_holding(rt, alloc, FILE, Some(SOME_TEXT));
    must(rt, files.disk()).fail(Some((place, moment)));
    let mut keeper = keeper_on(rt, &files);
    let answer = keep(rt, alloc, &mut keeper, 0, &code, &OTHERS);
    equal(rt, "the fault", &answer, &Err(KeeperFault::Unwritable));
    is_left_whole(rt, &files, answer);
    let is_replaced = must(rt, files.disk()).left(FILE, Left::All) == Some(OTHERS_TEXT.as_bytes());
    must(rt, files.disk()).fail(None);
    let left = if is_replaced { &OTHERS } else { &SOME };
    tells(rt, &mut keeper, 0, &code, left);
    tells(rt, &mut keeper_on(rt, &files), 0, &code, left);
    let again = keep(rt, alloc, &mut keeper, 0, &code, &OTHERS);
    equal(rt, "kept", &again, &Ok(()));
    tells(rt, &mut keeper_on(rt, &files), 0, &code, &OTHERS);
}

#[test]
fn each_call_of_a_keep_fails_in_turn(rt: HostRuntime) {
    let calls = calls_of_keep(&rt, rt.alloc());
    for place in 0..calls.len() {
        for &moment in &[Moment::Before, Moment::After] {
            fails_at(&rt, rt.alloc(), place, moment);
        }
    }
}
