/// What one look at a journal, beside the book and the commands, has found.
#[derive(Clone, Copy)]
pub(crate) struct Looked {
    /// Whether what it made are, in order, the entries of its resource.
    pub is_made: bool,
    /// Whether what it made and its restarts answer commands, and what it made has heard of incarnations alone in which
    /// the resources were.
    pub is_honest: bool,
    /// Whether its tickets rise.
    pub is_rising: bool,
}
