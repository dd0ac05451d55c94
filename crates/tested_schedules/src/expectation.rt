use std_blocks::Value;
use task_codes::TaskRef;

/// What a word such as `R1.A.N=1` expects: that an output of a task, at a place of its image, has a value.
#[derive(Clone, Copy, Debug, PartialEq, Eq)]
pub struct Expectation {
    pub task: TaskRef,
    pub place: usize,
    pub value: Value,
}
