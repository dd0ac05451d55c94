ghost use Rattle.std.specs.Prelude.{◌≡◌, IfOk};
ghost use Rattle.gates.specs.Gates.{IsBuilt};
ghost use Rattle.gates.specs.Signals.{signal_value};
ghost use Rattle.std_blocks.specs.Blocks.{rises};

use gates::{Gates, Signal};
use std::alloc::AllocError;

/// Whether an input is ON now and was OFF in the step before.
pub(crate) fn has_risen(
    gates: &mut Gates,
    last: Signal,
    input: Signal,
) -> Result<Signal, AllocError>
    ensures { IfOk result (λ s. IsBuilt gates.old gates.new
        (λ v. signal_value v s ≡ rises (signal_value v last) (signal_value v input))) }
{
    let was_off = last.negated();
    let risen = gates.and(input, was_off)?;
    Ok(risen)
}
