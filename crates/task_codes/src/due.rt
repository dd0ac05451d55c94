use crate::task_ref::TaskRef;

/// An entry of a plan: a task, and a moment at which it is due, in ms from the start.
#[derive(Clone, Copy, Debug, PartialEq, Eq)]
pub struct Due {
    pub moment: u32,
    pub task: TaskRef,
}
