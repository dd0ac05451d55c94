/// What the looks at all journals have found.
#[derive(Clone, Copy)]
pub(crate) struct Found {
    /// Whether the journals agree with the book.
    pub agree: bool,
    /// Whether evaluations and restarts answer commands, and entries have heard of incarnations alone in which the
    /// resources were.
    pub are_honest: bool,
    /// Whether the tickets of each journal rise.
    pub are_rising: bool,
}
