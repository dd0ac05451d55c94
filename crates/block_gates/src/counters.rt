ghost use Rattle.std.specs.Prelude.{◌≡◌, ◌&&◌, IfOk, if◌then◌else◌};
ghost use Rattle.gates.specs.Gates.{IsBuilt};
ghost use Rattle.gates.specs.Signals.{signal_value};
ghost use Rattle.gate_words.specs.Values.{int_at};
ghost use Rattle.std_blocks.specs.Blocks.{counted_up, counted_down, counted_both, one_more, one_less};
ghost use Rattle.block_gates.specs.declared.instance.EncodedInstance.TheVariants as block;
ghost use Rattle.block_gates.specs.Blocks.{IsStepped, pins_at, state_at};

use crate::counting::{one_less_of, one_more_of};
use crate::edges::has_risen;
use crate::instance::{EncodedCounter, EncodedUpDown};
use crate::pins::EncodedPins;
use gate_words::IntWord;
use gates::{Gates, Signal};
use std::alloc::{AllocError, Global};

/// CV of a CTU once it is stepped.
fn count_up(
    alloc: Global,
    gates: &mut Gates,
    counter: &EncodedCounter,
    pins: &EncodedPins,
) -> Result<IntWord, AllocError>
    ensures { IfOk result (λ new. IsBuilt gates.old gates.new
        (λ v. int_at v new ≡ counted_up (state_at v (block.CTU counter.now)) (pins_at v pins.now))) }
{
    let up = has_risen(gates, counter.last, pins.first)?;
    let more = one_more_of(alloc, gates, &counter.count)?;
    let counted = IntWord::chosen(alloc, gates, up, &more, &counter.count)?;
    let none = IntWord::zero(gates);
    let new = IntWord::chosen(alloc, gates, pins.second, &none, &counted)?;
    Ok(new)
}

/// CV of a CTD once it is stepped.
fn count_down(
    alloc: Global,
    gates: &mut Gates,
    counter: &EncodedCounter,
    pins: &EncodedPins,
) -> Result<IntWord, AllocError>
    ensures { IfOk result (λ new. IsBuilt gates.old gates.new
        (λ v. int_at v new ≡ counted_down (state_at v (block.CTD counter.now)) (pins_at v pins.now))) }
{
    let down = has_risen(gates, counter.last, pins.first)?;
    let less = one_less_of(alloc, gates, &counter.count)?;
    let counted = IntWord::chosen(alloc, gates, down, &less, &counter.count)?;
    let new = IntWord::chosen(alloc, gates, pins.second, &pins.int, &counted)?;
    Ok(new)
}

/// One more where the input up alone has risen, and one less where the input down alone has.
fn count_edges(
    alloc: Global,
    gates: &mut Gates,
    up: Signal,
    down: Signal,
    count: &IntWord,
) -> Result<IntWord, AllocError>
    ensures { IfOk result (λ new. IsBuilt gates.old gates.new
        (λ v. int_at v new ≡ (if signal_value v up && signal_value v down then int_at v count.now
        else (if signal_value v up then one_more (int_at v count.now)
        else (if signal_value v down then one_less (int_at v count.now) else int_at v count.now))))) }
{
    let both = gates.and(up, down)?;
    let more = one_more_of(alloc, gates, count)?;
    let less = one_less_of(alloc, gates, count)?;
    let by_down = IntWord::chosen(alloc, gates, down, &less, count)?;
    let by_up = IntWord::chosen(alloc, gates, up, &more, &by_down)?;
    let new = IntWord::chosen(alloc, gates, both, count, &by_up)?;
    Ok(new)
}

/// CV of a CTUD once it is stepped.
fn count_both(
    alloc: Global,
    gates: &mut Gates,
    counter: &EncodedUpDown,
    pins: &EncodedPins,
) -> Result<IntWord, AllocError>
    ensures { IfOk result (λ new. IsBuilt gates.old gates.new
        (λ v. int_at v new ≡ counted_both (state_at v (block.CTUD counter.now)) (pins_at v pins.now))) }
{
    let up = has_risen(gates, counter.last_up, pins.first)?;
    let down = has_risen(gates, counter.last_down, pins.second)?;
    let counted = count_edges(alloc, gates, up, down, &counter.count)?;
    let loaded = IntWord::chosen(alloc, gates, pins.fourth, &pins.int, &counted)?;
    let none = IntWord::zero(gates);
    let new = IntWord::chosen(alloc, gates, pins.third, &none, &loaded)?;
    Ok(new)
}

pub(crate) fn step_up(
    alloc: Global,
    gates: &mut Gates,
    counter: &EncodedCounter,
    pins: &EncodedPins,
) -> Result<EncodedCounter, AllocError>
    ensures { IfOk result (λ new. IsBuilt gates.old gates.new
        (λ v. IsStepped v (block.CTU counter.now) pins.now 0 (block.CTU new))) }
{
    let count = count_up(alloc, gates, counter, pins)?;
    let q = pins.int.at_most(gates, &count)?;
    Ok(EncodedCounter {
        last: pins.first,
        q,
        count,
    })
}

pub(crate) fn step_down(
    alloc: Global,
    gates: &mut Gates,
    counter: &EncodedCounter,
    pins: &EncodedPins,
) -> Result<EncodedCounter, AllocError>
    ensures { IfOk result (λ new. IsBuilt gates.old gates.new
        (λ v. IsStepped v (block.CTD counter.now) pins.now 0 (block.CTD new))) }
{
    let count = count_down(alloc, gates, counter, pins)?;
    let none = IntWord::zero(gates);
    let q = count.at_most(gates, &none)?;
    Ok(EncodedCounter {
        last: pins.first,
        q,
        count,
    })
}

pub(crate) fn step_up_down(
    alloc: Global,
    gates: &mut Gates,
    counter: &EncodedUpDown,
    pins: &EncodedPins,
) -> Result<EncodedUpDown, AllocError>
    ensures { IfOk result (λ new. IsBuilt gates.old gates.new
        (λ v. IsStepped v (block.CTUD counter.now) pins.now 0 (block.CTUD new))) }
{
    let count = count_both(alloc, gates, counter, pins)?;
    let none = IntWord::zero(gates);
    let qu = pins.int.at_most(gates, &count)?;
    let qd = count.at_most(gates, &none)?;
    Ok(EncodedUpDown {
        last_up: pins.first,
        last_down: pins.second,
        qu,
        qd,
        count,
    })
}
