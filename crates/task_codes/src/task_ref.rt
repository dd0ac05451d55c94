/// A task: the position of its resource, and its own among the resource's tasks, both from 0.
#[derive(Clone, Copy, Debug, PartialEq, Eq)]
pub struct TaskRef {
    pub resource: usize,
    pub task: usize,
}
