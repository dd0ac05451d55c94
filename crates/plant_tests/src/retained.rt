//! What outlives a restart of a task, and what a task begins with then.

use crate::checks::{equal, holds, must};
use crate::evaluations::{code_of, evaluated};
use evaluation::{Retained, TaskState, fits_state};
use plant::TaskRef;
use std::alloc::Global;
use std::process::Abort;
use std_blocks::Value;

/// A variable of each kind is retained; the edge sees the first of them.
const KEEP: &str = "PROGRAM KEEP
VAR_INPUT GO : BOOL; END_VAR
VAR_OUTPUT ROSE : BOOL; END_VAR
VAR RETAIN M : BOOL; N : INT; T : TIME; END_VAR
VAR K : BOOL; END_VAR
|  M     ROSE
+--|P|---( )
|  GO    M     K
+--| |---(S)---(S)
END_PROGRAM
CONFIGURATION C
  RESOURCE R ON NODE
    TASK TICK(INTERVAL := T#10ms, PRIORITY := 0);
    PROGRAM H WITH TICK : KEEP(GO := %IX0);
  END_RESOURCE
END_CONFIGURATION
";

const TICK: TaskRef = TaskRef {
    resource: 0,
    task: 0,
};

const VALUES: [Value; 3] = [Value::Bool(true), Value::Int(-7), Value::Time(250)];

/// These values, to be begun with.
fn retained(rt: &impl Abort, alloc: Global, values: &[Value]) -> Retained {
    Retained::from_values(must(rt, Vec::from_slice(alloc, values)))
}

#[test]
fn a_copy_holds_equal_values(rt: HostRuntime) {
    let kept = retained(&rt, rt.alloc(), &VALUES);
    let copy = must(&rt, kept.try_copy());
    for found in &[kept.values(), copy.values()] {
        equal(&rt, "values", found, &VALUES.as_slice());
    }
}

#[test]
fn values_suit_by_their_number_and_kinds(rt: HostRuntime) {
    let alloc = rt.alloc();
    let code = code_of(&rt, alloc, KEEP, TICK);
    let (off, one, time) = (Value::Bool(false), Value::Int(1), Value::Time(1));
    for &(values, suits) in &[
        ([off, one, time].as_slice(), true),
        ([off, one].as_slice(), false),
        ([off, one, time, time].as_slice(), false),
        ([one, off, time].as_slice(), false),
        ([off, one, one].as_slice(), false),
    ] {
        let found = retained(&rt, alloc, values).suits(&code);
        equal(&rt, "suits", &found, &suits);
    }
    let first = [off, Value::Int(0), Value::Time(0)];
    let initial = must(&rt, Retained::initial(alloc, &code));
    equal(&rt, "initial", &initial.values(), &first.as_slice());
}

/// The edge memory is OFF, so that the first scan sees a rise of what was retained.
#[test]
fn a_warm_state_has_the_values_alone(rt: HostRuntime) {
    let alloc = rt.alloc();
    let code = code_of(&rt, alloc, KEEP, TICK);
    let kept = retained(&rt, alloc, &VALUES);
    assert!(rt; kept.suits(&code));
    let state = must(&rt, TaskState::warm(alloc, &code, &kept));
    let off = Value::Bool(false);
    for &(place, value) in &[
        (0, off),
        (1, off),
        (2, VALUES[0]),
        (3, VALUES[1]),
        (4, VALUES[2]),
        (5, off),
    ] {
        let program = must(&rt, state.states().first().ok_or("no program"));
        equal(&rt, "value", &program.get(place), &Some(value));
    }
    let frame = evaluated(&rt, alloc, 1, TICK, &code, "%IX0=0", state);
    let rose = [Value::Bool(true)];
    equal(&rt, "rose", &frame.outputs().values(), &rose.as_slice());
    let after = frame.evaluation().after();
    assert!(rt; fits_state(&code, after));
    let left = must(&rt, Retained::of(alloc, &code, after));
    equal(&rt, "left", &left.values(), &VALUES.as_slice());
}

#[test]
fn a_warm_state_of_first_values_is_initial(rt: HostRuntime) {
    let alloc = rt.alloc();
    let code = code_of(&rt, alloc, KEEP, TICK);
    let first = must(&rt, Retained::initial(alloc, &code));
    assert!(rt; first.suits(&code));
    let warm = must(&rt, TaskState::warm(alloc, &code, &first));
    let initial = must(&rt, TaskState::initial(alloc, &code));
    holds(&rt, "initial", warm.same(&initial));
}
