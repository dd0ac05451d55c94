/// A task by its place, with what decides when it is due. Tasks that are due at one moment go by priority, resource and task.
#[derive(Clone, Copy, PartialEq, Eq, PartialOrd, Ord)]
pub(crate) struct Slot {
    pub priority: u16,
    pub resource: usize,
    pub task: usize,
    pub interval: u32,
}
