ghost use Rattle.std.specs.Prelude.{◌≡◌};
ghost use Rattle.gates.specs.Signals.{bit_of, signal_value};
ghost use Rattle.gates.specs.Steps.Values.{own_value};

use crate::gates::{Gate, Gates};
use crate::signal::Signal;
use std::alloc::{AllocError, Global};

/// The bit with a number, FALSE beyond the last.
fn bit(bits: &[bool], number: usize) -> bool
    ensures { result ≡ bit_of bits.now number }
{
    bits.get(number).copied().unwrap_or(false)
}

/// A signal, where these are the values of the variables.
pub fn value_in(values: &[bool], signal: Signal) -> bool
    ensures { result ≡ signal_value (bit_of values.now) signal }
{
    let value = bit(values, signal.variable);
    if signal.is_negated { !value } else { value }
}

/// A gate, where these are the inputs and the values of the variables.
fn own(inputs: &[bool], values: &[bool], gate: Gate) -> bool
    ensures { result ≡ own_value (bit_of inputs.now) (bit_of values.now) gate }
{
    match gate {
        Gate::Off => false,
        Gate::Input(number) => bit(inputs, number),
        Gate::And(left, right) => value_in(values, left) && value_in(values, right),
    }
}

impl Gates {
    ghost use Rattle.std.specs.Prelude.{IfOk};
    ghost use Rattle.gates.specs.Signals.{bit_of};
    ghost use Rattle.gates.specs.Gates.{AreValues, IsOrdered};

    /// The values of all variables under these inputs by their numbers; inputs beyond the last are FALSE.
    pub fn values(&self, alloc: Global, inputs: &[bool]) -> Result<Vec<bool>, AllocError>
        ensures { IfOk result (λ values. IsOrdered self.now → AreValues (bit_of inputs.now) self.now (bit_of values.items)) }
    {
        let gates = self.gates();
        let mut values = Vec::new(alloc);
        for gate in gates {
            let value = own(inputs, &values, *gate);
            values.push(value)?;
        }
        Ok(values)
    }
}
