ghost use Rattle.std.specs.Prelude.{◌↔◌, IsTrue};
ghost use Rattle.gates.specs.Gates.{IsBefore};

use crate::gates::{Gate, Gates};

/// Whether the signals that a gate reads are of variables below a number.
fn is_before(gate: Gate, number: usize) -> bool
    ensures { IsTrue result ↔ IsBefore number gate }
{
    match gate {
        Gate::And(left, right) => left.variable < number && right.variable < number,
        _ => true,
    }
}

impl Gates {
    ghost use Rattle.std.specs.Prelude.{IsTrue};
    ghost use Rattle.gates.specs.Gates.{HaveValues, IsOrdered};

    /// Whether each gate reads variables before it alone: so it is where all signals came from these gates.
    pub fn is_ordered(&self) -> bool
        ensures ordered { IsTrue result → IsOrdered self.now }
        ensures values { IsTrue result → HaveValues self.now }
    {
        let gates = self.gates();
        for (number, gate) in gates.iter().enumerate() {
            if !is_before(*gate, number) {
                return false;
            }
        }
        true
    }
}
