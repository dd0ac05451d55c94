use crate::counters::{step_down, step_up, step_up_down};
use crate::instance::EncodedInstance;
use crate::latches::{step_reset_dominant, step_set_dominant};
use crate::pins::EncodedPins;
use crate::timers::{step_off_delay, step_on_delay, step_pulse};
use gate_words::TimeWord;
use gates::Gates;
use std::alloc::{AllocError, Global};

impl EncodedInstance {
    ghost use Rattle.std.specs.Prelude.{◌≡◌, IfOk};
    ghost use Rattle.gates.specs.Gates.{IsBuilt};
    ghost use Rattle.gate_words.specs.Values.{time_at};
    ghost use Rattle.block_gates.specs.Blocks.{IsStepped, type_of};

    /// What it becomes by a step, `dt` behind the one before.
    pub fn step(
        &self,
        alloc: Global,
        gates: &mut Gates,
        pins: &EncodedPins,
        dt: &TimeWord,
    ) -> Result<EncodedInstance, AllocError>
        ensures kind { IfOk result (λ new. type_of new ≡ type_of self.now) }
        ensures stepped { IfOk result (λ new. IsBuilt gates.old gates.new
            (λ v. IsStepped v self.now pins.now (time_at v dt.now) new)) }
    {
        match self {
            EncodedInstance::SR(q1) => {
                let on = step_set_dominant(gates, *q1, pins)?;
                Ok(EncodedInstance::SR(on))
            }
            EncodedInstance::RS(q1) => {
                let on = step_reset_dominant(gates, *q1, pins)?;
                Ok(EncodedInstance::RS(on))
            }
            EncodedInstance::CTU(counter) => {
                let new = step_up(alloc, gates, counter, pins)?;
                Ok(EncodedInstance::CTU(new))
            }
            EncodedInstance::CTD(counter) => {
                let new = step_down(alloc, gates, counter, pins)?;
                Ok(EncodedInstance::CTD(new))
            }
            EncodedInstance::CTUD(counter) => {
                let new = step_up_down(alloc, gates, counter, pins)?;
                Ok(EncodedInstance::CTUD(new))
            }
            EncodedInstance::TP(timer) => {
                let new = step_pulse(alloc, gates, timer, pins, dt)?;
                Ok(EncodedInstance::TP(new))
            }
            EncodedInstance::TON(timer) => {
                let new = step_on_delay(alloc, gates, timer, pins, dt)?;
                Ok(EncodedInstance::TON(new))
            }
            EncodedInstance::TOF(timer) => {
                let new = step_off_delay(alloc, gates, timer, pins, dt)?;
                Ok(EncodedInstance::TOF(new))
            }
        }
    }
}
