//! Which elements have power in a scan: those that a drawing of it marks, and coils where they store TRUE.

use crate::checks::{equal, holds, must};
use crate::states::begun;
use drawings::Place;
use network::Element;
use power_flow::{Ladder, State};
use std::alloc::Global;
use std::process::Abort;
use std_blocks::Value;
use worked_texts::{ON_DELAY, RISING_CONTACT, START_STOP};

/// The character of a text at a place.
fn sign_at(text: &str, at: Place) -> u8 {
    let line = text.lines().nth(at.row.saturating_sub(1)).unwrap_or("");
    line.as_bytes()
        .get(at.column.saturating_sub(1))
        .copied()
        .unwrap_or(b' ')
}

/// An element has power where it is marked: a wire by `=`, a place of an upright by `#`. A coil has power where its variable is TRUE.
fn has_power_as_drawn(
    rt: &impl Abort,
    ladder: &Ladder,
    state: &State,
    marked: &str,
    element: &Element,
    power: bool,
) {
    match element {
        Element::Wire(at) => equal(rt, "wire", &(sign_at(marked, *at) == b'='), &power),
        Element::Join(at) | Element::Upright(at) => {
            equal(rt, "upright", &(sign_at(marked, *at) == b'#'), &power)
        }
        Element::Coil(coil) => {
            let place = ladder.place(coil.name.as_str()).unwrap_or(usize::MAX);
            equal(rt, "coil", &state.get(place), &Some(Value::Bool(power)))
        }
        _ => {}
    }
}

/// A scan of 10 ms with these BOOLs set before it, after which the marks of the drawing of one network tell where power is.
/// It leaves what `scan` leaves.
fn shows(
    rt: &impl Abort,
    alloc: Global,
    ladder: &Ladder,
    state: &mut State,
    values: &[(&str, bool)],
    marked: &str,
) {
    for &(name, on) in values {
        let place = ladder.place(name).unwrap_or(usize::MAX);
        holds(rt, name, state.set(place, Value::Bool(on)));
    }
    assert!(rt; ladder.fits(state));
    let mut other = must(rt, state.try_copy());
    assert!(rt; ladder.fits(&other));
    ladder.scan(&mut other, 10);
    let power = must(rt, ladder.power(alloc, state, 10));
    holds(rt, "it leaves what a scan leaves", state.same(&other));
    let elements = ladder.elements(0).expect(rt, "there is a network");
    equal(rt, "elements", &power.len(), &elements.len());
    for (element, power) in elements.iter().zip(power.iter()) {
        has_power_as_drawn(rt, ladder, state, marked, element, *power);
    }
}

#[test]
fn power_goes_on_behind_what_conducts(rt: HostRuntime) {
    let (ladder, mut state) = begun(&rt, rt.alloc(), START_STOP);
    let pushed = "\
|  START      STOP     RUN
+==| |====#===|/|======( )
|  RUN    #
+==| |----#
";
    shows(
        &rt,
        rt.alloc(),
        &ladder,
        &mut state,
        &[("START", true)],
        pushed,
    );
    let held = "\
|  START      STOP     RUN
+==| |----#===|/|======( )
|  RUN    #
+==| |====#
";
    shows(
        &rt,
        rt.alloc(),
        &ladder,
        &mut state,
        &[("START", false)],
        held,
    );
    let stopped = "\
|  START      STOP     RUN
+==| |----#===|/|------( )
|  RUN    #
+==| |====#
";
    shows(
        &rt,
        rt.alloc(),
        &ladder,
        &mut state,
        &[("STOP", true)],
        stopped,
    );
}

/// The timer runs for 30 ms, and its output is shown in the scan in which it goes on.
#[test]
fn power_begins_at_outputs_of_this_scan(rt: HostRuntime) {
    let (ladder, mut state) = begun(&rt, rt.alloc(), ON_DELAY);
    let running = "\
|             T1
|         +-------+
|  GO     |  TON  |   Y
+==| |====|IN    Q|---( )
| T#30ms--|PT   ET|--E
|         +-------+
";
    let done = "\
|             T1
|         +-------+
|  GO     |  TON  |   Y
+==| |====|IN    Q|===( )
| T#30ms--|PT   ET|--E
|         +-------+
";
    for &marked in &[running, running, running, done, done] {
        shows(
            &rt,
            rt.alloc(),
            &ladder,
            &mut state,
            &[("GO", true)],
            marked,
        );
    }
}

/// Power goes up an upright as well as down, and from none of its rows to the left.
#[test]
fn power_goes_both_ways_in_an_upright(rt: HostRuntime) {
    let drawing = "\
|  A     X
+--| |-+-( )
|  B   |
+--| |-+
|  C   |  Y
+--| |-+--( )
";
    let (ladder, mut state) = begun(&rt, rt.alloc(), drawing);
    let lowest = "\
|  A     X
+==| |-#=( )
|  B   #
+==| |-#
|  C   #  Y
+==| |=#==( )
";
    shows(&rt, rt.alloc(), &ladder, &mut state, &[("C", true)], lowest);
}

/// B rises before the first scan alone.
#[test]
fn power_goes_on_behind_an_edge_for_one_scan(rt: HostRuntime) {
    let (ladder, mut state) = begun(&rt, rt.alloc(), RISING_CONTACT);
    let rising = "\
|  A    B     Y
+==| |==|P|===( )
";
    let high = "\
|  A    B     Y
+==| |==|P|---( )
";
    let values = [("A", true), ("B", true)];
    shows(&rt, rt.alloc(), &ladder, &mut state, &values, rising);
    shows(&rt, rt.alloc(), &ladder, &mut state, &values, high);
}
