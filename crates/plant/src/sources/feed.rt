use declared_names::Kind;
use task_codes::TaskRef;
use words::Address;

/// Where a bound input takes its values from.
#[derive(Clone, Copy)]
pub enum Origin {
    /// A field address.
    Field(Address),
    /// A value of a task's image, by its position there.
    Output { task: TaskRef, output: usize },
}

/// A bound input of a program: the place of the variable, its kind, and where it takes its values from.
#[derive(Clone, Copy)]
pub struct Feed {
    pub place: usize,
    pub kind: Kind,
    pub origin: Origin,
}
