//! Retained variables that a keeper keeps and tells, be it in memory or in files.

use crate::checks::{equal, must};
use crate::disk_files::DiskFiles;
use crate::file_contents::keeper_on;
use evaluation::Retained;
use keepers::{Keeper, KeeperFault, MemoryKeeper};
use plant::{Plant, TaskCode, TaskRef};
use std::alloc::Global;
use std::process::Abort;
use std::sync::Arc;
use std_blocks::Value;

/// A variable of each kind is retained.
const KEEP: &str = "\
PROGRAM KEEP
VAR RETAIN M : BOOL; N : INT; T : TIME; END_VAR
VAR K : BOOL; END_VAR
|  M     K
+--| |---( )
END_PROGRAM
CONFIGURATION C
  RESOURCE R1 ON NODE
    TASK TICK(INTERVAL := T#10ms, PRIORITY := 0);
    PROGRAM H WITH TICK : KEEP;
  END_RESOURCE
END_CONFIGURATION
";

/// Nothing is retained.
const FORGET: &str = "\
PROGRAM FORGET
VAR M, K : BOOL; END_VAR
|  M     K
+--| |---( )
END_PROGRAM
CONFIGURATION C
  RESOURCE R1 ON NODE
    TASK TICK(INTERVAL := T#10ms, PRIORITY := 0);
    PROGRAM H WITH TICK : FORGET;
  END_RESOURCE
END_CONFIGURATION
";

pub const FIRST: [Value; 3] = [Value::Bool(false), Value::Int(0), Value::Time(0)];

pub const SOME: [Value; 3] = [Value::Bool(true), Value::Int(-7), Value::Time(250)];

pub const OTHERS: [Value; 3] = [
    Value::Bool(false),
    Value::Int(32_767),
    Value::Time(u32::MAX),
];

/// The code of a plant's one task.
fn code_of(rt: &impl Abort, alloc: Global, text: &str) -> Arc<TaskCode> {
    let plant = must(rt, Plant::read(alloc, text));
    let task = TaskRef {
        resource: 0,
        task: 0,
    };
    let code = must(rt, plant.code(task).ok_or("no task"));
    must(rt, Arc::try_clone(code))
}

/// The code of a task with three retained variables.
pub fn keeping_code(rt: &impl Abort, alloc: Global) -> Arc<TaskCode> {
    code_of(rt, alloc, KEEP)
}

/// Keeps these values of a task.
pub fn keep<K: Keeper>(
    rt: &impl Abort,
    alloc: Global,
    keeper: &mut K,
    task: usize,
    code: &TaskCode,
    values: &[Value],
) -> Result<(), KeeperFault> {
    let retained = Retained::from_values(must(rt, Vec::from_slice(alloc, values)));
    assert!(rt; retained.suits(code));
    keeper.keep(task, code, &retained)
}

/// Just these values are told of a task.
pub fn tells<K: Keeper>(
    rt: &impl Abort,
    keeper: &mut K,
    task: usize,
    code: &TaskCode,
    wanted: &[Value],
) {
    let told = must(rt, keeper.kept(task, code));
    equal(rt, "what is told", &told.values(), &wanted);
}

/// What was handed in last is told of each task, after a raise too, and to no code of other variables.
fn keeps_each_task<K: Keeper>(rt: &impl Abort, alloc: Global, keeper: &mut K) {
    let code = keeping_code(rt, alloc);
    tells(rt, keeper, 0, &code, &FIRST);
    equal(
        rt,
        "kept",
        &keep(rt, alloc, keeper, 0, &code, &SOME),
        &Ok(()),
    );
    tells(rt, keeper, 0, &code, &SOME);
    tells(rt, keeper, 1, &code, &FIRST);
    equal(
        rt,
        "kept",
        &keep(rt, alloc, keeper, 1, &code, &SOME),
        &Ok(()),
    );
    equal(
        rt,
        "kept",
        &keep(rt, alloc, keeper, 0, &code, &OTHERS),
        &Ok(()),
    );
    equal(rt, "raised", &keeper.raise(), &Ok(1));
    tells(rt, keeper, 0, &code, &OTHERS);
    tells(rt, keeper, 1, &code, &SOME);
    let other = code_of(rt, alloc, FORGET);
    let told = keeper.kept(0, &other);
    equal(
        rt,
        "to another code",
        &told.err(),
        &Some(KeeperFault::Unreadable),
    );
    tells(rt, keeper, 0, &code, &OTHERS);
    tells(rt, keeper, 2, &other, &[]);
}

#[test]
fn a_keeper_in_memory_tells_what_it_was_handed_last(rt: HostRuntime) {
    let mut keeper = MemoryKeeper::new(rt.alloc(), 0);
    keeps_each_task(&rt, rt.alloc(), &mut keeper);
}

#[test]
fn a_keeper_of_files_tells_what_it_was_handed_last(rt: HostRuntime) {
    let files = must(&rt, DiskFiles::new(rt.alloc()));
    let mut keeper = keeper_on(&rt, &files);
    keeps_each_task(&rt, rt.alloc(), &mut keeper);
    let code = keeping_code(&rt, rt.alloc());
    tells(&rt, &mut keeper_on(&rt, &files), 0, &code, &OTHERS);
}
