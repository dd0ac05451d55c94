use crate::line::Line;

/// What one process of a node noted: its START and the lines up to the next one.
#[derive(Drop)]
pub(crate) struct Run {
    pub resource: usize,
    /// The incarnation of its START.
    pub incarnation: u32,
    pub lines: Vec<Line>,
}
