/// Why a line isn't done that comes to a node with a field or a cycle; nothing is changed then.
#[derive(Clone, Copy, Debug, PartialEq, Eq)]
pub enum FieldRefusal {
    /// A word behind `INPUT` is no `ADDRESS=VALUE`.
    Syntax,
    /// Two words behind `INPUT` have one address.
    Twice,
    /// It has more than 16,777,216 bytes.
    TooLong,
    /// This input may not say it.
    NotFromThere,
    /// Evaluations are asked for by the cycle.
    Cycling,
}
