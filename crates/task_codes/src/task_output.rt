use declared_names::Kind;

/// An output of a task: the position of its program, the place of the variable, and its kind.
#[derive(Clone, Copy, Debug, PartialEq, Eq)]
pub struct TaskOutput {
    pub program: usize,
    pub place: usize,
    pub kind: Kind,
}
