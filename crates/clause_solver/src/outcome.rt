use clauses::Literal;

/// What came of a search.
#[derive(Debug, Drop)]
pub enum Outcome {
    /// Values were found: those that the variables now have.
    Satisfied,
    /// There are none: these of the assumptions can't be TRUE together.
    Refuted(Vec<Literal>),
    /// The search ended before, at its bound.
    Ended,
}
