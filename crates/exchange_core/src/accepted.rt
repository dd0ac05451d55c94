/// What a core answers to a frame.
#[derive(Clone, Copy, Debug, PartialEq, Eq)]
pub enum Accepted {
    /// Its pair of incarnation and number is greater than that of the frame held from its task: it is held from now on.
    Taken,
    /// Its pair isn't greater.
    Old,
    /// It is of a task of this resource, of a task from which no task here takes, or its image hasn't the kinds expected.
    Unused,
    /// It is of use, but addressed to another incarnation of this resource.
    Stray,
}
