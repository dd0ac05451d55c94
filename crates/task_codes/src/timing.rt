/// What decides when a task is due: the time from once to the next, in ms, and its priority; 0 is the highest.
#[derive(Clone, Copy, Debug, PartialEq, Eq)]
pub struct Timing {
    pub interval: u32,
    pub priority: u16,
}
