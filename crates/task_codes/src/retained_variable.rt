use declared_names::Kind;

/// A variable of a task that outlives a restart: the position of its program, the place of the variable, and its kind.
#[derive(Clone, Copy, Debug, PartialEq, Eq)]
pub struct RetainedVariable {
    pub program: usize,
    pub place: usize,
    pub kind: Kind,
}
