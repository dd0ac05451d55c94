//! What a plant tells of its tasks.

use crate::checks::{equal, must};
use plant::{Binding, Plant, Source, TaskRef};
use power_flow::Kind;
use task_codes::RetainedVariable;

/// Two resources, of which the second takes from itself and from two tasks of the first, in another order than these stand in.
const TAKERS: &str = "\
PROGRAM FLIP
VAR_INPUT P : BOOL; END_VAR
VAR_OUTPUT Q : BOOL; END_VAR
|  P     Q
+--|/|---( )
END_PROGRAM
PROGRAM PICK
VAR_INPUT A, B : BOOL; N : INT; END_VAR VAR_OUTPUT Y, Z : BOOL; M : INT; END_VAR VAR L : BOOL; END_VAR
|  A     B     Y
+--| |---| |---( )
END_PROGRAM
CONFIGURATION C
RESOURCE R1 ON N1
TASK K1(INTERVAL := T#10ms, PRIORITY := 1);
TASK K2(INTERVAL := T#10ms, PRIORITY := 1);
PROGRAM F WITH K1 : FLIP;
PROGRAM G WITH K2 : FLIP;
END_RESOURCE
RESOURCE R2 ON N2
TASK K(INTERVAL := T#10ms, PRIORITY := 1);
PROGRAM H WITH K : FLIP(P := R2.I.Z);
PROGRAM I WITH K : PICK(B := r1.g.q, A := R1.F.Q);
END_RESOURCE
END_CONFIGURATION
";

/// A task that runs three programs with blocks VAR RETAIN among others, and one whose program has none.
const RETAINERS: &str = "\
PROGRAM HOLD
VAR_INPUT GO : BOOL; END_VAR
VAR_OUTPUT Q, L : BOOL; END_VAR
VAR RETAIN M : BOOL; END_VAR
VAR K : BOOL; END_VAR
|  GO    M     K
+--| |---(S)---(S)
|  M     Q
+--| |---( )
|  K     L
+--| |---( )
END_PROGRAM
PROGRAM MANY
var retain A : TIME; end_var VAR T : TON; END_VAR VAR RETAIN END_VAR
VAR Retain B, C : INT; D : BOOL; END_VAR VAR_OUTPUT Q : BOOL; END_VAR
VAR E : INT; END_VAR VAR (* kept *) RETAIN F : BOOL; END_VAR
|  D     Q
+--| |---( )
END_PROGRAM
PROGRAM NONE
VAR A : BOOL; END_VAR
|  A     A
+--| |---( )
END_PROGRAM
CONFIGURATION C
RESOURCE R1 ON NODE
TASK TICK(INTERVAL := T#10ms, PRIORITY := 0);
TASK TOCK(INTERVAL := T#10ms, PRIORITY := 0);
PROGRAM H WITH TICK : HOLD(GO := %IX0);
PROGRAM N WITH TOCK : NONE;
PROGRAM M WITH TICK : MANY;
PROGRAM I WITH TICK : HOLD;
END_RESOURCE
END_CONFIGURATION
";

const FIRST: TaskRef = TaskRef {
    resource: 0,
    task: 0,
};

const SECOND: TaskRef = TaskRef {
    resource: 0,
    task: 1,
};

const TAKER: TaskRef = TaskRef {
    resource: 1,
    task: 0,
};

/// The output of a producer, to which the input of a place is bound.
fn bound(place: usize, producer: usize, output: usize) -> Binding {
    let source = Source::Given { producer, output };
    Binding { place, source }
}

#[test]
fn a_plant_tells_what_its_tasks_take(rt: HostRuntime) {
    let plant = must(&rt, Plant::read(rt.alloc(), TAKERS));
    for &(name, task) in &[
        ("R1.K1", Some(FIRST)),
        ("r1.k2", Some(SECOND)),
        ("R2.k", Some(TAKER)),
        ("R3.K", None),
        ("R1.L", None),
        ("R1", None),
        ("R1.", None),
        (".K", None),
        ("R2.K.K", None),
        ("", None),
    ] {
        equal(&rt, name, &plant.find(name), &task);
    }
    let producers = [TAKER, SECOND, FIRST];
    equal(
        &rt,
        "producers",
        &plant.producers(TAKER),
        &producers.as_slice(),
    );
    let code = must(&rt, plant.code(TAKER).ok_or("no code"));
    for &(program, bindings) in &[
        (0, [bound(0, 0, 2)].as_slice()),
        (1, [bound(1, 1, 0), bound(0, 2, 0)].as_slice()),
    ] {
        equal(&rt, "bindings", &code.bindings(program), &bindings);
    }
    equal(
        &rt,
        "outputs",
        &(code.outputs(), code.expected(0).len()),
        &(4, 4),
    );
    for &(output, name) in &[
        (0, Some(("H", "Q"))),
        (2, Some(("I", "Z"))),
        (3, Some(("I", "M"))),
        (4, None),
    ] {
        equal(&rt, "output", &code.output_name(output), &name);
    }
}

fn kept(program: usize, place: usize, kind: Kind) -> RetainedVariable {
    RetainedVariable {
        program,
        place,
        kind,
    }
}

#[test]
fn a_task_lists_its_retained_variables(rt: HostRuntime) {
    let plant = must(&rt, Plant::read(rt.alloc(), RETAINERS));
    let wanted = [
        kept(0, 3, Kind::Bool),
        kept(1, 0, Kind::Time),
        kept(1, 2, Kind::Int),
        kept(1, 3, Kind::Int),
        kept(1, 4, Kind::Bool),
        kept(1, 7, Kind::Bool),
        kept(2, 3, Kind::Bool),
    ];
    for &(task, retained) in &[(FIRST, wanted.as_slice()), (SECOND, [].as_slice())] {
        let code = must(&rt, plant.code(task).ok_or("no code"));
        equal(&rt, "retained", &code.retained(), &retained);
    }
}
