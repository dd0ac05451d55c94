/// An evaluation that a cycle asks for: of the task at this place of its resource, `dt` ms after the one before. `skipped`
/// of its due moments passed before it could be evaluated.
#[derive(Clone, Copy, Debug, PartialEq, Eq)]
pub struct Asked {
    pub task: usize,
    pub dt: u32,
    pub skipped: u64,
}
