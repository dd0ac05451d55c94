ghost use Rattle.std.specs.Prelude.{◌≡◌, ℕ, IfOk};
ghost use Rattle.gates.specs.Gates.{IsBuilt};
ghost use Rattle.gates.specs.Signals.{signal_value};
ghost use Rattle.gate_words.specs.Values.{time_at};
ghost use Rattle.std_blocks.specs.Blocks.{off_delay_output, off_delay_time};
ghost use Rattle.block_gates.specs.declared.instance.EncodedInstance.TheVariants as block;
ghost use Rattle.block_gates.specs.Blocks.{IsStepped, pins_at, state_at};

use crate::instance::EncodedTimer;
use crate::pins::EncodedPins;
use crate::timing::{begins_pulse, is_less, time_off_delay, time_on_delay, time_pulse};
use gate_words::TimeWord;
use gates::{Gates, Signal};
use std::alloc::{AllocError, Global};

pub(crate) fn step_on_delay(
    alloc: Global,
    gates: &mut Gates,
    timer: &EncodedTimer,
    pins: &EncodedPins,
    dt: &TimeWord,
) -> Result<EncodedTimer, AllocError>
    ensures { IfOk result (λ new. IsBuilt gates.old gates.new
        (λ v. IsStepped v (block.TON timer.now) pins.now (time_at v dt.now) (block.TON new))) }
{
    let elapsed = time_on_delay(alloc, gates, timer, pins, dt)?;
    let come = pins.time.at_most(gates, &elapsed)?;
    let on = gates.and(pins.first, come)?;
    Ok(EncodedTimer {
        last_in: pins.first,
        on,
        elapsed,
    })
}

/// Q of a TOF once it is stepped, by its ET then.
fn output_off_delay(
    gates: &mut Gates,
    timer: &EncodedTimer,
    pins: &EncodedPins,
    elapsed: &TimeWord,
) -> Result<Signal, AllocError>
    ensures { IfOk result (λ s. IsBuilt gates.old gates.new (λ v. (dt : ℕ)
        → time_at v elapsed.now ≡ off_delay_time (state_at v (block.TOF timer.now)) (pins_at v pins.now) dt
        → signal_value v s ≡ off_delay_output (state_at v (block.TOF timer.now)) (pins_at v pins.now) dt)) }
{
    let none = TimeWord::zero(gates);
    let lasts = is_less(gates, &none, &pins.time)?;
    let runs = is_less(gates, elapsed, &pins.time)?;
    let goes_on = gates.and(timer.on, runs)?;
    let behind = gates.if_then_else(timer.last_in, lasts, goes_on)?;
    let on = gates.or(pins.first, behind)?;
    Ok(on)
}

pub(crate) fn step_off_delay(
    alloc: Global,
    gates: &mut Gates,
    timer: &EncodedTimer,
    pins: &EncodedPins,
    dt: &TimeWord,
) -> Result<EncodedTimer, AllocError>
    ensures { IfOk result (λ new. IsBuilt gates.old gates.new
        (λ v. IsStepped v (block.TOF timer.now) pins.now (time_at v dt.now) (block.TOF new))) }
{
    let elapsed = time_off_delay(alloc, gates, timer, pins, dt)?;
    let on = output_off_delay(gates, timer, pins, &elapsed)?;
    Ok(EncodedTimer {
        last_in: pins.first,
        on,
        elapsed,
    })
}

pub(crate) fn step_pulse(
    alloc: Global,
    gates: &mut Gates,
    timer: &EncodedTimer,
    pins: &EncodedPins,
    dt: &TimeWord,
) -> Result<EncodedTimer, AllocError>
    ensures { IfOk result (λ new. IsBuilt gates.old gates.new
        (λ v. IsStepped v (block.TP timer.now) pins.now (time_at v dt.now) (block.TP new))) }
{
    let elapsed = time_pulse(alloc, gates, timer, pins, dt)?;
    let begins = begins_pulse(gates, timer, pins)?;
    let pulses = gates.or(timer.on, begins)?;
    let runs = is_less(gates, &elapsed, &pins.time)?;
    let on = gates.and(pulses, runs)?;
    Ok(EncodedTimer {
        last_in: pins.first,
        on,
        elapsed,
    })
}
