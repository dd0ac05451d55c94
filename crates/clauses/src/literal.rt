ghost use Rattle.std.specs.Prelude.{◌≡◌, not};

/// A variable by its number, or its negation.
#[derive(Clone, Copy, Debug, PartialEq, Eq)]
pub struct Literal {
    pub variable: usize,
    pub is_negated: bool,
}

impl Literal {
    /// The variable's value at which the literal is TRUE.
    pub(crate) fn wanted(&self) -> bool
        ensures { result ≡ not self.now.is_negated }
    {
        !self.is_negated
    }
}
