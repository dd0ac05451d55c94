ghost use Rattle.std.specs.Prelude.{◌≡◌, ◌&&◌, nat_lt, IfOk};
ghost use Rattle.gates.specs.Gates.{IsBuilt};
ghost use Rattle.gates.specs.Signals.{signal_value};
ghost use Rattle.gate_words.specs.Values.{time_at};
ghost use Rattle.std_blocks.specs.Blocks.{run_on, on_delay_time, off_delay_time, pulse_begins, pulse_time};
ghost use Rattle.block_gates.specs.declared.instance.EncodedInstance.TheVariants as block;
ghost use Rattle.block_gates.specs.Blocks.{pins_at, state_at};

use crate::edges::has_risen;
use crate::instance::EncodedTimer;
use crate::pins::EncodedPins;
use gate_words::TimeWord;
use gates::{Gates, Signal};
use std::alloc::{AllocError, Global};

/// The elapsed time once more has passed, but at most the preset.
fn run_on_of(
    alloc: Global,
    gates: &mut Gates,
    preset: &TimeWord,
    elapsed: &TimeWord,
    dt: &TimeWord,
) -> Result<TimeWord, AllocError>
    ensures { IfOk result (λ new. IsBuilt gates.old gates.new
        (λ v. time_at v new ≡ run_on (time_at v preset.now) (time_at v elapsed.now) (time_at v dt.now))) }
{
    let new = elapsed.bounded_sum(alloc, gates, dt, preset)?;
    Ok(new)
}

/// Whether the first time is less than the second.
pub(crate) fn is_less(
    gates: &mut Gates,
    first: &TimeWord,
    second: &TimeWord,
) -> Result<Signal, AllocError>
    ensures { IfOk result (λ s. IsBuilt gates.old gates.new
        (λ v. signal_value v s ≡ nat_lt (time_at v first.now) (time_at v second.now))) }
{
    let isnt = second.at_most(gates, first)?;
    let less = isnt.negated();
    Ok(less)
}

/// ET of a TON once it is stepped.
pub(crate) fn time_on_delay(
    alloc: Global,
    gates: &mut Gates,
    timer: &EncodedTimer,
    pins: &EncodedPins,
    dt: &TimeWord,
) -> Result<TimeWord, AllocError>
    ensures { IfOk result (λ new. IsBuilt gates.old gates.new
        (λ v. time_at v new ≡ on_delay_time (state_at v (block.TON timer.now)) (pins_at v pins.now) (time_at v dt.now))) }
{
    let runs = gates.and(pins.first, timer.last_in)?;
    let more = run_on_of(alloc, gates, &pins.time, &timer.elapsed, dt)?;
    let none = TimeWord::zero(gates);
    let new = TimeWord::chosen(alloc, gates, runs, &more, &none)?;
    Ok(new)
}

/// ET of a TOF once it is stepped.
pub(crate) fn time_off_delay(
    alloc: Global,
    gates: &mut Gates,
    timer: &EncodedTimer,
    pins: &EncodedPins,
    dt: &TimeWord,
) -> Result<TimeWord, AllocError>
    ensures { IfOk result (λ new. IsBuilt gates.old gates.new
        (λ v. time_at v new ≡ off_delay_time (state_at v (block.TOF timer.now)) (pins_at v pins.now) (time_at v dt.now))) }
{
    let begins = gates.or(pins.first, timer.last_in)?;
    let more = run_on_of(alloc, gates, &pins.time, &timer.elapsed, dt)?;
    let later = TimeWord::chosen(alloc, gates, timer.on, &more, &timer.elapsed)?;
    let none = TimeWord::zero(gates);
    let new = TimeWord::chosen(alloc, gates, begins, &none, &later)?;
    Ok(new)
}

/// Whether a pulse of a TP begins.
pub(crate) fn begins_pulse(
    gates: &mut Gates,
    timer: &EncodedTimer,
    pins: &EncodedPins,
) -> Result<Signal, AllocError>
    ensures { IfOk result (λ s. IsBuilt gates.old gates.new
        (λ v. signal_value v s ≡ pulse_begins (state_at v (block.TP timer.now)) (pins_at v pins.now))) }
{
    let risen = has_risen(gates, timer.last_in, pins.first)?;
    let off = timer.on.negated();
    let begins = gates.and(off, risen)?;
    Ok(begins)
}

/// ET of a TP once it is stepped.
pub(crate) fn time_pulse(
    alloc: Global,
    gates: &mut Gates,
    timer: &EncodedTimer,
    pins: &EncodedPins,
    dt: &TimeWord,
) -> Result<TimeWord, AllocError>
    ensures { IfOk result (λ new. IsBuilt gates.old gates.new
        (λ v. time_at v new ≡ pulse_time (state_at v (block.TP timer.now)) (pins_at v pins.now) (time_at v dt.now))) }
{
    let begins = begins_pulse(gates, timer, pins)?;
    let off = pins.first.negated();
    let rests = gates.or(begins, off)?;
    let none = TimeWord::zero(gates);
    let kept = TimeWord::chosen(alloc, gates, rests, &none, &timer.elapsed)?;
    let more = run_on_of(alloc, gates, &pins.time, &timer.elapsed, dt)?;
    let new = TimeWord::chosen(alloc, gates, timer.on, &more, &kept)?;
    Ok(new)
}
