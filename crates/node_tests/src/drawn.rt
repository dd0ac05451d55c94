//! Plants, and lists of commands drawn by lot.

use crate::checks::must;
use crate::runs::Ask;
use std::alloc::Global;
use std::fmt::Write;
use std::process::Abort;

/// A task's program, and the first resource, which takes from the last one if that is named so.
const NEXT: &str = "\
PROGRAM NEXT
VAR_INPUT B, UP : BOOL; END_VAR
VAR_OUTPUT Q : BOOL; END_VAR
|  B     Q
+--|/|-+-( )
|  UP  |
+--| |-+
END_PROGRAM
CONFIGURATION WHOLE
";

/// Appends a resource with one task, which takes from the one task of another resource.
fn push_resource(rt: &impl Abort, text: &mut String, number: u32, from: u32) {
    let written = write!(
        text,
        "  RESOURCE R{number} ON NODE
    TASK T(INTERVAL := T#10ms, PRIORITY := 0);
    PROGRAM P WITH T : NEXT(B := R{from}.P.Q, UP := %IX0);
  END_RESOURCE
"
    );
    must(rt, written);
}

/// The text of a plant of so many resources, each of which takes from the one before, and the first one from the last.
pub fn ring(rt: &impl Abort, alloc: Global, count: u32) -> String {
    let mut text = must(rt, String::from_str(alloc, NEXT));
    push_resource(rt, &mut text, 1, count);
    for number in 2..=count {
        push_resource(rt, &mut text, number, number - 1);
    }
    must(rt, text.push_str("END_CONFIGURATION\n"));
    text
}

/// The text of a plant of so many resources, all of which take from the first one.
pub fn fan(rt: &impl Abort, alloc: Global, count: u32) -> String {
    let mut text = must(rt, String::from_str(alloc, NEXT));
    for number in 1..=count {
        push_resource(rt, &mut text, number, 1);
    }
    must(rt, text.push_str("END_CONFIGURATION\n"));
    text
}

/// The next number that looks drawn by lot, below 2^24.
fn next(seed: &mut u32) -> u32 {
    *seed = seed.wrapping_mul(1_664_525).wrapping_add(1_013_904_223);
    *seed >> 8
}

/// 1 to 12 commands drawn by lot, of which one in so many is a restart; with 0 none is. Each resource has one task.
pub fn drawn_asks(
    rt: &impl Abort,
    alloc: Global,
    seed: &mut u32,
    resources: usize,
    restarts: u32,
) -> Vec<Ask> {
    let mut asks = Vec::new(alloc);
    for _place in 0..1 + next(seed) % 12 {
        let resource = (next(seed) as usize).checked_rem(resources).unwrap_or(0);
        let is_restart = next(seed).checked_rem(restarts) == Some(0);
        let is_on = next(seed) % 2 == 1;
        let ask = if is_restart {
            Ask::Restart(resource)
        } else {
            Ask::Evaluate(resource, 0, is_on)
        };
        must(rt, asks.push(ask));
    }
    asks
}
