//! Which names are declared, and where they are found.

use crate::checks::{equal, holds, must};
use power_flow::{Declarations, DeclareFault, Declared, Kind};
use std_blocks::BlockType;

/// No word of a drawing is longer than 240 characters; a name may be.
#[test]
fn names_differ_by_more_than_case(rt: HostRuntime) {
    let mut long = String::new(rt.alloc());
    for _ in 0..241 {
        must(&rt, long.push('x'));
    }
    let mut long_again = must(&rt, String::from_str(rt.alloc(), long.as_str()));
    long_again.make_ascii_uppercase();
    let mut declarations = Declarations::new(rt.alloc());
    holds(&rt, "nothing is declared", declarations.is_empty());
    let (input, block) = (
        Declared::Input(Kind::Bool),
        Declared::Instance(BlockType::TON),
    );
    let time = Declared::Local(Kind::Time);
    for &(name, declared, answer) in &[
        ("A", input, Ok(())),
        ("a", Declared::Local(Kind::Int), Err(DeclareFault::Twice)),
        ("a_1", block, Ok(())),
        ("x", time, Ok(())),
        (long.as_str(), time, Ok(())),
        (long_again.as_str(), time, Err(DeclareFault::Twice)),
    ] {
        equal(&rt, name, &declarations.add(name, declared), &answer);
    }
    let entries = [
        Some(("A", input)),
        Some(("a_1", block)),
        Some(("x", time)),
        Some((long.as_str(), time)),
        None,
    ];
    equal(&rt, "length", &declarations.len(), &4);
    for (place, entry) in entries.iter().enumerate() {
        equal(&rt, "entry", &declarations.entry(place), entry);
    }
    for &(name, place) in &[
        ("A_1", Some(1)),
        (long_again.as_str(), Some(3)),
        ("b", None),
    ] {
        equal(&rt, name, &declarations.position(name), &place);
    }
}
