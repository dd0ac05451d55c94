ghost use Rattle.std.specs.Prelude.{◌≡◌, ◌↔◌, IsTrue};
ghost use Rattle.clauses.specs.Clauses.{clause_value, literal_value};
ghost use Rattle.gates.specs.Signals.{bit_of};
ghost use Rattle.transition_systems.specs.Certificates.{HoldOf};

use clauses::Literal;

/// A literal, where its variable is the number of a bit.
fn is_literal_on(state: &[bool], literal: Literal) -> bool
    ensures { result ≡ literal_value (bit_of state.now) literal }
{
    let bit = state.get(literal.variable).copied().unwrap_or(false);
    if literal.is_negated { !bit } else { bit }
}

/// A clause likewise: whether one of its literals is TRUE.
fn is_clause_on(state: &[bool], clause: &[Literal]) -> bool
    ensures { result ≡ clause_value (bit_of state.now) clause.now }
{
    for literal in clause {
        if is_literal_on(state, *literal) {
            return true;
        }
    }
    false
}

/// Whether all clauses hold of a state.
pub(crate) fn hold_of(clauses: &[Vec<Literal>], state: &[bool]) -> bool
    ensures { IsTrue result → HoldOf clauses.now state.now }
{
    for clause in clauses {
        if !is_clause_on(state, clause.as_slice()) {
            return false;
        }
    }
    true
}
