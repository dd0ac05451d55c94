ghost use Rattle.std.specs.Prelude.{◌≡◌, IfOk};
ghost use Rattle.gates.specs.Gates.{IsBuilt};
ghost use Rattle.gates.specs.Signals.{signal_value};
ghost use Rattle.std_blocks.specs.Blocks.{set_dominant, reset_dominant};
ghost use Rattle.block_gates.specs.declared.instance.EncodedInstance.TheVariants as block;
ghost use Rattle.block_gates.specs.Blocks.{pins_at, state_at};

use crate::pins::EncodedPins;
use gates::{Gates, Signal};
use std::alloc::AllocError;

/// Q1 of an SR once it is stepped.
pub(crate) fn step_set_dominant(
    gates: &mut Gates,
    q1: Signal,
    pins: &EncodedPins,
) -> Result<Signal, AllocError>
    ensures { IfOk result (λ s. IsBuilt gates.old gates.new
        (λ v. signal_value v s ≡ set_dominant (state_at v (block.SR q1)) (pins_at v pins.now))) }
{
    let stays = pins.second.negated();
    let kept = gates.and(stays, q1)?;
    let on = gates.or(pins.first, kept)?;
    Ok(on)
}

/// Q1 of an RS once it is stepped.
pub(crate) fn step_reset_dominant(
    gates: &mut Gates,
    q1: Signal,
    pins: &EncodedPins,
) -> Result<Signal, AllocError>
    ensures { IfOk result (λ s. IsBuilt gates.old gates.new
        (λ v. signal_value v s ≡ reset_dominant (state_at v (block.RS q1)) (pins_at v pins.now))) }
{
    let stays = pins.second.negated();
    let set = gates.or(pins.first, q1)?;
    let on = gates.and(stays, set)?;
    Ok(on)
}
