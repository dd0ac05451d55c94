//! What states hold, and which states and ladders are the same.

use crate::checks::{equal, holds, must};
use ladder_text::{Drawing, ReadText};
use network::Graph;
use power_flow::{Declarations, Declared, Guess, Kind, Ladder, Snapshot, State};
use std::alloc::Global;
use std::process::Abort;
use std_blocks::{BlockType, Value};
use worked_texts::{ON_DELAY, RISING_CONTACT, START_STOP};

/// The ladder of a drawing that has no fault, its names declared by their use behind those that are given.
fn ladder_of(rt: &impl Abort, alloc: Global, drawing: &str, names: &[(&str, Declared)]) -> Ladder {
    let drawing = must(rt, Drawing::read(alloc, drawing, 1));
    let graph = must(rt, Graph::build(alloc, &drawing));
    let mut declarations = must(rt, Declarations::guess(alloc, &graph));
    for &(name, declared) in names {
        must(rt, declarations.add(name, declared));
    }
    must(rt, Ladder::bind(alloc, graph, declarations))
}

/// The ladder of a drawing, and its state before the first scan.
pub fn begun(rt: &impl Abort, alloc: Global, drawing: &str) -> (Ladder, State) {
    let ladder = ladder_of(rt, alloc, drawing, &[]);
    let state = must(rt, ladder.initial(alloc));
    (ladder, state)
}

/// A scan of 10 ms, with these BOOLs set before it.
fn scan_with(rt: &impl Abort, ladder: &Ladder, state: &mut State, values: &[(&str, bool)]) {
    for &(name, on) in values {
        let place = ladder.place(name).unwrap_or(usize::MAX);
        holds(rt, name, state.set(place, Value::Bool(on)));
    }
    assert!(rt; ladder.fits(state));
    ladder.scan(state, 10);
}

/// The values of the first places.
fn has_values(rt: &impl Abort, state: &State, values: &[Option<Value>]) {
    for (place, value) in values.iter().enumerate() {
        equal(rt, "value", &(place, state.get(place)), &(place, *value));
    }
}

/// The digest of a state, once it is kept.
fn digest(rt: &impl Abort, alloc: Global, state: &State) -> u64 {
    let copy = must(rt, state.try_copy());
    must(rt, Snapshot::of(alloc, copy)).digest()
}

#[test]
fn variables_are_read_and_written_by_place(rt: HostRuntime) {
    let names = [
        ("A", Declared::Input(Kind::Bool)),
        ("N", Declared::Output(Kind::Int)),
        ("D", Declared::Local(Kind::Time)),
        ("T1", Declared::Instance(BlockType::TON)),
    ];
    let ladder = ladder_of(&rt, rt.alloc(), "|\n", &names);
    let mut state = must(&rt, ladder.initial(rt.alloc()));
    let (off, none) = (Some(Value::Bool(false)), Some(Value::Int(0)));
    let zero = Some(Value::Time(0));
    has_values(&rt, &state, &[off, none, zero, None, None]);
    for &(place, value, is_set) in &[
        (1, Value::Int(-7), true),
        (1, Value::Bool(true), false),
        (3, Value::Bool(true), false),
        (4, Value::Bool(true), false),
        (2, Value::Time(1), true),
    ] {
        equal(&rt, "set", &state.set(place, value), &is_set);
    }
    let (seven, one) = (Some(Value::Int(-7)), Some(Value::Time(1)));
    has_values(&rt, &state, &[off, seven, one, None, None]);
}

/// START, STOP and RUN are the first places.
#[test]
fn a_copy_is_the_same_until_something_changes(rt: HostRuntime) {
    let (ladder, mut state) = begun(&rt, rt.alloc(), START_STOP);
    scan_with(&rt, &ladder, &mut state, &[("START", true)]);
    let mut copy = must(&rt, state.try_copy());
    holds(&rt, "a copy is the same", copy.same(&state));
    let kept = digest(&rt, rt.alloc(), &state);
    equal(&rt, "digest", &digest(&rt, rt.alloc(), &copy), &kept);
    let (on, off) = (Some(Value::Bool(true)), Some(Value::Bool(false)));
    has_values(&rt, &copy, &[on, off, on, None]);
    holds(&rt, "STOP is set", copy.set(1, Value::Bool(true)));
    holds(&rt, "the copy differs", !copy.same(&state));
    let changed = digest(&rt, rt.alloc(), &copy);
    holds(&rt, "so does its digest", changed != kept);
}

/// The last scan was without power, or with power up to STOP.
#[test]
fn what_a_scan_left_in_its_places_does_not_count(rt: HostRuntime) {
    let (ladder, mut state) = begun(&rt, rt.alloc(), START_STOP);
    let mut still = must(&rt, state.try_copy());
    scan_with(&rt, &ladder, &mut still, &[]);
    scan_with(&rt, &ladder, &mut state, &[("START", true)]);
    holds(&rt, "it runs", !state.same(&still));
    let values = [("START", false), ("STOP", true)];
    scan_with(&rt, &ladder, &mut state, &values);
    holds(&rt, "STOP is set", state.set(1, Value::Bool(false)));
    holds(&rt, "it stands", state.same(&still));
}

/// Two coils in one network, and each in a network of its own: a scan needs fewer places there.
#[test]
fn how_many_places_a_scan_needs_does_not_count(rt: HostRuntime) {
    let (one_network, state) = begun(&rt, rt.alloc(), "|  X   X\n+--( )-( )\n");
    let (_, other) = begun(&rt, rt.alloc(), "|  X\n+-( )\n|  X\n+--( )\n");
    holds(&rt, "the other has fewer", !one_network.fits(&other));
    holds(&rt, "they are the same", state.same(&other));
}

/// A scan with the BOOL on leaves a memory, or a block, that no variable shows once the BOOL is off again.
#[test]
fn what_no_variable_shows_counts(rt: HostRuntime) {
    for &(drawing, name) in &[(RISING_CONTACT, "B"), (ON_DELAY, "GO")] {
        let (ladder, first) = begun(&rt, rt.alloc(), drawing);
        let mut state = must(&rt, first.try_copy());
        scan_with(&rt, &ladder, &mut state, &[(name, true)]);
        let place = ladder.place(name).unwrap_or(usize::MAX);
        holds(&rt, name, state.set(place, Value::Bool(false)));
        for place in 0..ladder.declarations().len() {
            equal(&rt, "value", &state.get(place), &first.get(place));
        }
        holds(&rt, name, !state.same(&first));
        let before = digest(&rt, rt.alloc(), &first);
        holds(&rt, name, digest(&rt, rt.alloc(), &state) != before);
    }
}

const OTHER_PRESET: &str = "\
|             T1
|         +-------+
|  GO     |  TON  |   Y
+--| |----|IN    Q|---( )
| T#40ms--|PT   ET|--E
|         +-------+
";

const OTHER_CASE: &str = "\
|             T1
|         +-------+
|  go     |  TON  |   Y
+--| |----|IN    Q|---( )
| T#30ms--|PT   ET|--E
|         +-------+
";

#[test]
fn ladders_of_one_drawing_are_the_same(rt: HostRuntime) {
    let ladder = ladder_of(&rt, rt.alloc(), ON_DELAY, &[]);
    for &(drawing, is_same) in &[
        (ON_DELAY, true),
        (START_STOP, false),
        (OTHER_PRESET, false),
        (OTHER_CASE, false),
    ] {
        let other = ladder_of(&rt, rt.alloc(), drawing, &[]);
        equal(&rt, drawing, &ladder.same(&other), &is_same);
    }
}
