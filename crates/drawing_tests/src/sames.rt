//! Which values, blocks and outputs are the same, how a block begins, and steps that no program reaches.

use crate::checks::{equal, holds};
use std::process::Abort;
use std_blocks::{BlockState, BlockType, PinsIn, PinsOut, Value};

#[test]
fn values_are_same_by_kind_and_contents(rt: HostRuntime) {
    for &(value, other, is_same) in &[
        (Value::Bool(true), Value::Bool(true), true),
        (Value::Bool(true), Value::Bool(false), false),
        (Value::Int(-7), Value::Int(-7), true),
        (Value::Int(-7), Value::Int(7), false),
        (Value::Time(7), Value::Time(7), true),
        (Value::Time(7), Value::Time(8), false),
        (Value::Time(7), Value::Int(7), false),
    ] {
        let found = (value, other, value.same(&other));
        equal(&rt, "values", &found, &(value, other, is_same));
    }
}

#[test]
fn blocks_are_same_in_all_fields(rt: HostRuntime) {
    let state = BlockState {
        block: BlockType::CTUD,
        on: false,
        last_in: false,
        last_cu: false,
        last_cd: false,
        count: 0,
        elapsed: 0,
    };
    equal(&rt, "first", &BlockState::initial(BlockType::CTUD), &state);
    for &(other, is_same) in &[
        (BlockState::initial(BlockType::CTUD), true),
        (BlockState::initial(BlockType::CTU), false),
        (BlockState { on: true, ..state }, false),
        (
            BlockState {
                last_in: true,
                ..state
            },
            false,
        ),
        (
            BlockState {
                last_cu: true,
                ..state
            },
            false,
        ),
        (
            BlockState {
                last_cd: true,
                ..state
            },
            false,
        ),
        (BlockState { count: 1, ..state }, false),
        (
            BlockState {
                elapsed: 1,
                ..state
            },
            false,
        ),
    ] {
        equal(
            &rt,
            "blocks",
            &(other, state.same(&other)),
            &(other, is_same),
        );
    }
}

#[test]
fn outputs_are_same_in_all_fields(rt: HostRuntime) {
    let shown = PinsOut {
        bits: [true, false],
        int: 3,
        time: 4,
    };
    holds(&rt, "a copy is the same", shown.same(&PinsOut { ..shown }));
    for &other in &[
        PinsOut {
            bits: [false, false],
            ..shown
        },
        PinsOut {
            bits: [true, true],
            ..shown
        },
        PinsOut { int: 4, ..shown },
        PinsOut { time: 3, ..shown },
    ] {
        equal(
            &rt,
            "outputs",
            &(other, shown.same(&other)),
            &(other, false),
        );
    }
}

/// Steps a timer by rows of PT, dt and IN, and compares Q and ET.
fn compare_timer(rt: &impl Abort, block: BlockType, rows: &[(u32, u32, bool, bool, u32)]) {
    let mut state = BlockState::initial(block);
    for (row, &(preset, dt, input, q, elapsed)) in rows.iter().enumerate() {
        let pins = PinsIn {
            bits: [input, true, true, true],
            int: 5,
            time: preset,
        };
        let shown = PinsOut {
            bits: [q, false],
            int: 0,
            time: elapsed,
        };
        equal(rt, "row", &(row, state.step(&pins, dt)), &(row, shown));
    }
}

const ON: bool = true;

const OFF: bool = false;

/// The greatest time of a step; no preset of a program is that long.
const END: u32 = u32::MAX;

const ON_DELAY_ROWS: &[(u32, u32, bool, bool, u32)] = &[
    (END, END, ON, OFF, 0),
    (END, END - 1, ON, OFF, END - 1),
    (END, END, ON, ON, END),
    (END, END, ON, ON, END),
    (7, 1, ON, ON, 7),
];

const OFF_DELAY_ROWS: &[(u32, u32, bool, bool, u32)] = &[
    (END, END, ON, ON, 0),
    (END, END, OFF, ON, 0),
    (END, END - 1, OFF, ON, END - 1),
    (END, END, OFF, OFF, END),
];

const PULSE_ROWS: &[(u32, u32, bool, bool, u32)] = &[
    (END, END, ON, ON, 0),
    (END, END - 1, ON, ON, END - 1),
    (END, 2, ON, OFF, END),
];

#[test]
fn times_do_not_wrap(rt: HostRuntime) {
    compare_timer(&rt, BlockType::TON, ON_DELAY_ROWS);
    compare_timer(&rt, BlockType::TOF, OFF_DELAY_ROWS);
    compare_timer(&rt, BlockType::TP, PULSE_ROWS);
}
