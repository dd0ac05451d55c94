//! What is told of a folder of state that can't be held or read.

use crate::run_keepers::keepers_in;
use console::{FAILED, Shown};
use keepers::{BadLine, FileKeeper, KeeperFault, LockFault, SystemFolder};
use plant::{Plant, TaskCode, TaskRef};
use std::io::Read;
use std::{fs, io};
use text_lines::resource_name;

/// Tells why a folder can't be held; the status.
pub(crate) fn print_lock_fault<R: Eprint>(
    rt: &R,
    folder: &str,
    fault: LockFault,
) -> io::Result<u8> {
    let folder = Shown(folder);
    eprintln!(rt; "plc: {folder}: {fault}")?;
    Ok(FAILED)
}

/// How many bytes of a task's file are looked at for how its lines end.
const MOST_BYTES: u64 = 1_048_576;

/// The first bytes of a file; none of one that can't be read.
fn first_bytes(host: &HostRuntime, path: &str) -> io::Result<Vec<u8>> {
    let mut bytes = Vec::new(host.alloc());
    let file = fs::open(host, path)?;
    file.take(MOST_BYTES).read_to_end(&mut bytes)?;
    Ok(bytes)
}

/// What is told of the end of a line, where it isn't a line feed alone; lines count from 1. Nothing is where the text has no such
/// line, or goes on behind the bytes that are looked at.
fn told_end(text: &[u8], line: usize) -> &'static str {
    let mut rows = text
        .split(|byte| *byte == b'\n')
        .skip(line.saturating_sub(1));
    let Some(row) = rows.next() else {
        return "";
    };
    if row.ends_with(b"\r") {
        return ", and a line feed alone: a carriage return stands before it";
    }
    let is_whole = (text.len() as u64) < MOST_BYTES;
    if is_whole && !row.is_empty() && rows.next().is_none() {
        ", and a line feed: the file ends without one"
    } else {
        ""
    }
}

/// Tells of the line of a task's file that isn't what is kept of its retained variables.
fn print_bad_line<R: Eprint>(
    rt: &R,
    host: &HostRuntime,
    file: &str,
    code: &TaskCode,
    bad: &BadLine,
) -> io::Result<()> {
    let BadLine { line, expected } = bad;
    let is_of_variable = *line <= code.retained().len();
    let end = match first_bytes(host, file) {
        Ok(text) if is_of_variable => told_end(&text, *line),
        _ => "",
    };
    let file = Shown(file);
    eprintln!(rt; "plc: {file}:{line}: Unreadable: expected {expected}{end}")
}

/// Tells of a task's file where it isn't what is kept of its retained variables.
fn print_task_fault<R: Eprint>(
    rt: &R,
    host: &HostRuntime,
    file: &str,
    code: &TaskCode,
    found: Result<Option<BadLine>, KeeperFault>,
) -> io::Result<()> {
    match found {
        Ok(None) => Ok(()),
        Ok(Some(bad)) => print_bad_line(rt, host, file, code, &bad),
        Err(fault) => {
            let file = Shown(file);
            eprintln!(rt; "plc: {file}: {fault}")
        }
    }
}

/// Tells of which tasks of a resource the retained variables couldn't be told.
fn print_task_faults<R: Eprint + AllocGlobal>(
    rt: &R,
    host: &HostRuntime,
    plant: &Plant,
    resource: usize,
    path: &str,
    keeper: &FileKeeper<SystemFolder<HostRuntime>>,
) -> io::Result<()> {
    for task in 0..plant.tasks(resource).len() {
        if let Some(code) = plant.code(TaskRef { resource, task }) {
            let file = format!(in rt.alloc(); "{path}.{task}.ret")?;
            print_task_fault(rt, host, file.as_str(), code, keeper.bad_line(task, code))?;
        }
    }
    Ok(())
}

/// Tells whether a resource's incarnation couldn't be raised, and of which of its tasks the retained variables couldn't be
/// told.
pub(crate) fn print_resource_faults<R: Eprint + AllocGlobal>(
    rt: &R,
    host: &HostRuntime,
    plant: &Plant,
    resource: usize,
    folder: &str,
    keeper: &FileKeeper<SystemFolder<HostRuntime>>,
) -> io::Result<()> {
    let name = resource_name(plant, resource);
    let path = format!(in rt.alloc(); "{folder}/{name}")?;
    if let Err(fault) = keeper.next_number() {
        let shown = Shown(path.as_str());
        eprintln!(rt; "plc: {shown}.inc: {fault}")?;
    }
    print_task_faults(rt, host, plant, resource, path.as_str(), keeper)
}

/// Tells where there is no folder of this name; whether that is so.
pub(crate) fn print_no_folder<R: Eprint>(
    rt: &R,
    host: &HostRuntime,
    folder: &str,
) -> io::Result<bool> {
    let is_there = match fs::metadata(host, folder) {
        Ok(found) => found.is_dir(),
        Err(_) => false,
    };
    if !is_there {
        let folder = Shown(folder);
        eprintln!(rt; "plc: {folder}: there is no folder of this name")?;
    }
    Ok(!is_there)
}

/// Tells of which resources an incarnation couldn't be raised, or retained variables couldn't be told.
pub(crate) fn print_keeper_faults<R: Eprint + AllocGlobal>(
    rt: &R,
    host: &HostRuntime,
    plant: &Plant,
    folder: &str,
) -> io::Result<()> {
    if print_no_folder(rt, host, folder)? {
        return Ok(());
    }
    let keepers = keepers_in(rt.alloc(), host, plant, folder)?;
    for (resource, keeper) in keepers.iter().enumerate() {
        print_resource_faults(rt, host, plant, resource, folder, keeper)?;
    }
    Ok(())
}
