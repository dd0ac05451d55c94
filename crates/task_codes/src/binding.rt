use words::Address;

/// Where a bound input is filled from.
#[derive(Clone, Copy, Debug, PartialEq, Eq)]
pub enum Source {
    /// A field address.
    Field(Address),
    /// A value of the image that is taken from a producer: the positions of the producer among the task's producers, and of the value in its image, both from 0.
    Given { producer: usize, output: usize },
}

/// A bound input of a program: the place of the variable, and its source.
#[derive(Clone, Copy, Debug, PartialEq, Eq)]
pub struct Binding {
    pub place: usize,
    pub source: Source,
}
