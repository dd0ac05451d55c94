ghost use Rattle.std.specs.Prelude.{◌≡◌, ◌&&◌, ℕ, Bool, false, IfSome};
ghost use Rattle.gates.specs.Signals.{signal_value};
ghost use Rattle.gates.specs.Gates.{IsGate};

use crate::gates::Gate;
use crate::signal::Signal;

/// The signal that is TRUE where both are, if no gate is needed for it: one is a constant, they are the same, or each
/// other's negation. Variable 0 is FALSE.
pub(crate) fn simple_and(left: Signal, right: Signal) -> Option<Signal>
    ensures { IfSome result (λ s. (v : ℕ → Bool) → v 0 ≡ false → signal_value v s ≡ (signal_value v left && signal_value v right)) }
{
    if left.variable == 0 {
        return Some(if left.is_negated { right } else { left });
    }
    if right.variable == 0 {
        return Some(if right.is_negated { left } else { right });
    }
    if left.variable != right.variable {
        return None;
    }
    if left.is_negated == right.is_negated {
        return Some(left);
    }
    Some(Signal {
        variable: 0,
        is_negated: false,
    })
}

/// The AND of two signals, whichever of them stands first.
pub(crate) fn and_gate(left: Signal, right: Signal) -> Gate
    ensures { (v : ℕ → Bool) (on : Bool) → IsGate on v result → on ≡ (signal_value v left && signal_value v right) }
{
    if right.variable < left.variable {
        Gate::And(right, left)
    } else {
        Gate::And(left, right)
    }
}
