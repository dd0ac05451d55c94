//! Which inputs, takes, states, evaluations and frames are the same or fit.

use crate::checks::{equal, holds, must};
use evaluation::{
    Evaluation, FieldInput, Frame, Image, InputFault, Inputs, Name, Take, TaskState, fits_state,
    suits_takes,
};
use plant::{Address, Plant, Space, TaskCode, TaskRef};
use std::alloc::Global;
use std::process::Abort;
use std::sync::Arc;
use std_blocks::Value;
use worked_texts::PAIR;

/// Three tasks whose output is always FALSE: one has an input that nothing shows, one an edge memory, and one a block that hasn't run its time.
/// The edge and the block see their input one scan late, so that they alone still know it once the input is FALSE again.
const MARKS: &str = "PROGRAM HELD
VAR_INPUT NO : BOOL; I : BOOL; END_VAR
VAR_OUTPUT Y : BOOL; END_VAR
|  NO   I     Y
+--| |--| |---( )
END_PROGRAM
PROGRAM EDGE
VAR_INPUT NO : BOOL; I : BOOL; END_VAR
VAR_OUTPUT Y : BOOL; END_VAR
VAR WAS : BOOL; END_VAR
|  NO   WAS   Y
+--| |--|P|---( )
|  I          WAS
+--| |--------( )
END_PROGRAM
PROGRAM DELAY
VAR_INPUT I : BOOL; END_VAR
VAR_OUTPUT Y : BOOL; END_VAR
VAR WAS : BOOL; T1 : TON; END_VAR
|            T1
|         +-------+
|  WAS    |  TON  |   Y
+--| |----|IN    Q|---( )
| T#30ms--|PT     |
|         +-------+
|  I                  WAS
+--| |----------------( )
END_PROGRAM
CONFIGURATION MARKS
  RESOURCE R ON NODE
    TASK A(INTERVAL := T#10ms, PRIORITY := 1);
    TASK B(INTERVAL := T#10ms, PRIORITY := 1);
    TASK C(INTERVAL := T#10ms, PRIORITY := 1);
    PROGRAM P WITH A : HELD(I := %IX0);
    PROGRAM Q WITH B : EDGE(I := %IX0);
    PROGRAM S WITH C : DELAY(I := %IX0);
  END_RESOURCE
END_CONFIGURATION
";

const FAST: TaskRef = TaskRef {
    resource: 0,
    task: 0,
};

const SLOW: TaskRef = TaskRef {
    resource: 1,
    task: 0,
};

/// The code of a task of a plant.
pub fn code_of(rt: &impl Abort, alloc: Global, plant: &str, task: TaskRef) -> Arc<TaskCode> {
    let plant = must(rt, Plant::read(alloc, plant));
    let code = must(rt, plant.code(task).ok_or("no task"));
    must(rt, Arc::try_clone(code))
}

/// The frame of an evaluation of a task that takes nothing, from a state, under a ticket.
pub fn evaluated(
    rt: &impl Abort,
    alloc: Global,
    ticket: u64,
    task: TaskRef,
    code: &Arc<TaskCode>,
    inputs: &str,
    before: TaskState,
) -> Frame {
    let name = Name {
        task,
        incarnation: 1,
        number: 1,
    };
    let inputs = must(rt, Inputs::read(alloc, inputs));
    let takes = Vec::new(alloc);
    let code = must(rt, Arc::try_clone(code));
    let heard = must(rt, vec![in alloc; 1u32; 2]);
    assert!(rt; fits_state(&code, &before));
    assert!(rt; suits_takes(&code, takes.as_slice()));
    assert!(rt; task.resource < heard.len());
    assert!(rt; heard[task.resource] == name.incarnation);
    let made = Evaluation::make(alloc, ticket, name, heard, 10, inputs, takes, before, code);
    must(rt, Frame::new(alloc, must(rt, made)))
}

/// The frame of a task, evaluated under a ticket, from the state that evaluations with the inputs before leave.
fn frame_after(
    rt: &impl Abort,
    alloc: Global,
    plant: &str,
    task: TaskRef,
    before: &[&str],
    ticket: u64,
    inputs: &str,
) -> Frame {
    let code = code_of(rt, alloc, plant, task);
    let mut state = must(rt, TaskState::initial(alloc, &code));
    for inputs in before {
        let frame = evaluated(rt, alloc, 1, task, &code, inputs, state);
        state = must(rt, frame.evaluation().after().try_copy());
    }
    evaluated(rt, alloc, ticket, task, &code, inputs, state)
}

#[test]
fn frames_are_the_same_by_ticket_and_inputs(rt: HostRuntime) {
    let frame = frame_after(&rt, rt.alloc(), PAIR, FAST, &[], 1, "%IX0=1");
    for &(ticket, inputs, is_same) in &[
        (1, "%IX0=1", true),
        (2, "%IX0=1", false),
        (1, "%IX0=0", false),
    ] {
        let other = frame_after(&rt, rt.alloc(), PAIR, FAST, &[], ticket, inputs);
        equal(&rt, inputs, &other.same(&frame), &is_same);
    }
}

#[test]
fn shares_and_copies_are_the_same(rt: HostRuntime) {
    let frame = frame_after(&rt, rt.alloc(), PAIR, FAST, &[], 1, "%IX0=1");
    let share = must(&rt, frame.try_clone());
    let evaluation = share.evaluation();
    let copy = must(&rt, evaluation.after().try_copy());
    let found = (
        share.same(&frame),
        copy.same(evaluation.after()),
        fits_state(evaluation.code(), &copy),
        copy.same(evaluation.before()),
    );
    equal(&rt, "share, copy", &found, &(true, true, true, false));
    let values = [Value::Int(1), Value::Bool(false)];
    equal(&rt, "image", &share.outputs().values(), &values.as_slice());
}

#[test]
fn names_go_by_incarnation_first(rt: HostRuntime) {
    let name = |incarnation: u32, number: u32| Name {
        task: FAST,
        incarnation,
        number,
    };
    for &(one, other, precedes) in &[
        (name(1, 9), name(2, 1), true),
        (name(2, 1), name(2, 2), true),
        (name(2, 1), name(2, 1), false),
        (name(2, 1), name(1, 9), false),
    ] {
        equal(&rt, "precedes", &one.precedes(&other), &precedes);
    }
}

/// Whether all variables of the only programs have the same values.
fn show_the_same(state: &TaskState, other: &TaskState) -> bool {
    match (state.states(), other.states()) {
        ([state], [other]) => (0..5).all(|place| state.get(place) == other.get(place)),
        _ => false,
    }
}

/// Whether what two frames give, the states after and before, the evaluations and the frames are the same.
fn are_same(frame: &Frame, other: &Frame) -> [bool; 5] {
    let (evaluation, other_evaluation) = (frame.evaluation(), other.evaluation());
    [
        evaluation.outputs().same(other_evaluation.outputs()),
        evaluation.after().same(other_evaluation.after()),
        evaluation.before().same(other_evaluation.before()),
        evaluation.same(other_evaluation),
        frame.same(other),
    ]
}

/// The states before differ in one value, in one memory, or in one block, and nothing else does.
#[test]
fn what_no_output_shows_counts(rt: HostRuntime) {
    let alloc = rt.alloc();
    for &(task, first, second, is_hidden) in &[
        (0, "%IX0=0", "%IX0=1", false),
        (1, "%IX0=1", "%IX0=0", true),
        (2, "%IX0=1", "%IX0=0", true),
    ] {
        let task = TaskRef { resource: 0, task };
        let marked = frame_after(&rt, alloc, MARKS, task, &[first, second], 1, "%IX0=0");
        let again = frame_after(&rt, alloc, MARKS, task, &[first, second], 1, "%IX0=0");
        let plain = frame_after(&rt, alloc, MARKS, task, &["%IX0=0", "%IX0=0"], 1, "%IX0=0");
        equal(&rt, "again", &are_same(&marked, &again), &[true; 5]);
        let told_apart = [true, true, false, false, false];
        equal(&rt, "plain", &are_same(&marked, &plain), &told_apart);
        let found = show_the_same(marked.evaluation().before(), plain.evaluation().before());
        equal(&rt, "no variable shows it", &found, &is_hidden);
    }
}

#[test]
fn takes_are_one_for_each_producer(rt: HostRuntime) {
    let alloc = rt.alloc();
    let code = code_of(&rt, alloc, PAIR, SLOW);
    holds(&rt, "none is too few", !suits_takes(&code, &[]));
    let (one, off) = (Value::Int(1), Value::Bool(false));
    let (initial, given) = ([Value::Int(0), off], [one, off]);
    let here = Some((1, 1));
    for &(producer, from, values, suits) in &[
        (FAST, None, initial.as_slice(), true),
        (SLOW, None, initial.as_slice(), false),
        (FAST, None, given.as_slice(), false),
        (FAST, here, given.as_slice(), true),
        (FAST, here, [off, one].as_slice(), false),
        (FAST, here, [one].as_slice(), false),
    ] {
        let take = Take {
            producer,
            from,
            image: Image::of(must(&rt, Vec::from_slice(alloc, values))),
        };
        let takes = must(&rt, vec![in alloc; take]);
        equal(&rt, "suits", &suits_takes(&code, takes.as_slice()), &suits);
    }
}

#[test]
fn inputs_are_the_same_in_one_order(rt: HostRuntime) {
    let inputs = must(&rt, Inputs::read(rt.alloc(), "%IX0=1 %IX1=0 %IW2=-7"));
    for &(text, is_same) in &[
        ("%ix0=1\t%ix1=0 %Iw2=-0_7 ", Ok(true)),
        ("%IX1=0 %IX0=1 %IW2=-7", Ok(false)),
        ("%IX0=1 %IX1=0", Ok(false)),
        (" \t", Ok(false)),
        ("%IX0=1 %IX0=0 %IX1=x", Err(InputFault::Syntax)),
        ("%IW7=1\t%IX7=1 %iw0_7=1", Err(InputFault::Twice)),
    ] {
        let found = Inputs::read(rt.alloc(), text).map(|other| inputs.same(&other));
        equal(&rt, text, &found, &is_same);
    }
}

#[test]
fn a_copy_holds_the_same_inputs(rt: HostRuntime) {
    let inputs = must(&rt, Inputs::read(rt.alloc(), "%IX0=1 %IW2=-7"));
    let copy = must(&rt, inputs.try_copy());
    for &(space, number, value) in &[
        (Space::Bit, 0, Value::Bool(true)),
        (Space::Bit, 2, Value::Bool(false)),
        (Space::Word, 2, Value::Int(-7)),
        (Space::Word, 3, Value::Int(0)),
    ] {
        let found = (number, copy.get(Address { space, number }));
        equal(&rt, "input", &found, &(number, value));
    }
    let second = FieldInput::Word {
        number: 2,
        value: -7,
    };
    let listed = (copy.listed().len(), copy.listed().get(1));
    equal(&rt, "second", &listed, &(2, Some(&second)));
}
