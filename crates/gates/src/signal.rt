ghost use Rattle.std.specs.Prelude.{◌≡◌, ℕ, Bool, not};
ghost use Rattle.clauses.specs.Clauses.{literal_value};
ghost use Rattle.gates.specs.Signals.{signal_value};

use clauses::Literal;

/// A variable by its number, or its negation.
#[derive(Clone, Copy, Debug, PartialEq, Eq, Hash)]
pub struct Signal {
    pub variable: usize,
    pub is_negated: bool,
}

impl Signal {
    /// It is TRUE where this one isn't.
    pub fn negated(self) -> Signal
        ensures { (v : ℕ → Bool) → signal_value v result ≡ not (signal_value v self) }
    {
        Signal {
            variable: self.variable,
            is_negated: !self.is_negated,
        }
    }

    /// It as a literal.
    pub fn literal(self) -> Literal
        ensures { (v : ℕ → Bool) → literal_value v result ≡ signal_value v self }
    {
        Literal {
            variable: self.variable,
            is_negated: self.is_negated,
        }
    }
}
