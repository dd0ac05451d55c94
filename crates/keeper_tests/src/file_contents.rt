//! What is answered to each content of a keeper's file, and what is in it then.

use crate::checks::{equal, must};
use crate::disk::Left;
use crate::disk_files::{DiskFiles, FOLDER};
use keepers::{FileKeeper, Keeper, KeeperFault, SystemFolder};
use std::alloc::Global;
use std::process::Abort;

pub const FILE: &str = "D/R1.inc";

/// A keeper of R1 over a disk.
pub fn keeper_on(rt: &impl Abort, files: &DiskFiles) -> FileKeeper<SystemFolder<DiskFiles>> {
    let shared = must(rt, files.share());
    let folder = must(rt, SystemFolder::new(shared, FOLDER));
    must(rt, FileKeeper::new(files.alloc(), folder, "R1"))
}

/// A disk on which a file has this content; none where there is no file.
pub fn disk_holding(
    rt: &impl Abort,
    alloc: Global,
    file: &str,
    content: Option<&str>,
) -> DiskFiles {
    let files = must(rt, DiskFiles::new(alloc));
    if let Some(content) = content {
        let mut disk = must(rt, files.disk());
        must(rt, disk.fill(file, content));
        disk.fail(None);
    }
    files
}

/// A disk on which the file of the incarnation has this content.
pub fn disk_with(rt: &impl Abort, alloc: Global, content: Option<&str>) -> DiskFiles {
    disk_holding(rt, alloc, FILE, content)
}

/// The file holds these bytes.
pub fn holds_content(rt: &impl Abort, files: &DiskFiles, wanted: Option<&str>) {
    let disk = must(rt, files.disk());
    let wanted = wanted.map(|content| content.as_bytes());
    equal(
        rt,
        "what the file holds",
        &disk.left(FILE, Left::All),
        &wanted,
    );
}

const UNREADABLE: Result<u32, KeeperFault> = Err(KeeperFault::Unreadable);

/// A content, what is answered to it, and the content then.
const CONTENTS: [(Option<&str>, Result<u32, KeeperFault>, Option<&str>); 22] = [
    (None, Ok(1), Some("1\n")),
    (Some("0\n"), Ok(1), Some("1\n")),
    (Some("1\n"), Ok(2), Some("2\n")),
    (Some("9\n"), Ok(10), Some("10\n")),
    (
        Some("4294967294\n"),
        Ok(4_294_967_295),
        Some("4294967295\n"),
    ),
    (
        Some("4294967295\n"),
        Err(KeeperFault::Spent),
        Some("4294967295\n"),
    ),
    (Some("4294967296\n"), UNREADABLE, Some("4294967296\n")),
    (Some("42949672950\n"), UNREADABLE, Some("42949672950\n")),
    (Some("9999999999\n"), UNREADABLE, Some("9999999999\n")),
    (Some(""), UNREADABLE, Some("")),
    (Some("x"), UNREADABLE, Some("x")),
    (Some("x\n"), UNREADABLE, Some("x\n")),
    (Some("\n"), UNREADABLE, Some("\n")),
    (Some("1"), UNREADABLE, Some("1")),
    (Some("01\n"), UNREADABLE, Some("01\n")),
    (Some("00\n"), UNREADABLE, Some("00\n")),
    (Some("+1\n"), UNREADABLE, Some("+1\n")),
    (Some("-1\n"), UNREADABLE, Some("-1\n")),
    (Some(" 1\n"), UNREADABLE, Some(" 1\n")),
    (Some("1\r\n"), UNREADABLE, Some("1\r\n")),
    (Some("1\n\n"), UNREADABLE, Some("1\n\n")),
    (Some("1\n2\n"), UNREADABLE, Some("1\n2\n")),
];

#[test]
fn each_content_has_its_answer(rt: HostRuntime) {
    for &(before, answer, after) in &CONTENTS {
        let files = disk_with(&rt, rt.alloc(), before);
        equal(&rt, "the answer", &keeper_on(&rt, &files).raise(), &answer);
        holds_content(&rt, &files, after);
    }
}

#[test]
fn a_number_below_the_last_answer_is_unreadable(rt: HostRuntime) {
    let files = disk_with(&rt, rt.alloc(), Some("6\n"));
    let mut keeper = keeper_on(&rt, &files);
    equal(&rt, "the first", &keeper.raise(), &Ok(7));
    must(&rt, must(&rt, files.disk()).fill(FILE, "6\n"));
    equal(&rt, "one below", &keeper.raise(), &UNREADABLE);
    holds_content(&rt, &files, Some("6\n"));
    must(&rt, must(&rt, files.disk()).remove(FILE));
    equal(&rt, "removed", &keeper.raise(), &UNREADABLE);
    holds_content(&rt, &files, None);
    must(&rt, must(&rt, files.disk()).fill(FILE, "41\n"));
    equal(&rt, "one above", &keeper.raise(), &Ok(42));
    holds_content(&rt, &files, Some("42\n"));
}
