ghost use Rattle.std.specs.Prelude.{◌≡◌, slice_get};
ghost use Rattle.scan_steps.specs.Steps.BoxSteps.{box_inputs, box_result, state_in, read_by};
ghost use Rattle.std_blocks.specs.declared.block_type.BlockType.{BlockType};

use crate::slot::Instance;
use crate::slots::Slots;
use crate::source::Source;
use std_blocks::{BlockState, BlockType, Field, PinsIn};

/// An output pin of a box: what it shows, and where that goes.
#[derive(Clone, Copy)]
pub struct BoundOutput {
    pub field: Field,
    /// Its row, counted from the network's topmost row.
    pub row: usize,
    /// The place of the variable that stores it, if it has an operand.
    pub store: Option<usize>,
}

/// A box with its names bound.
#[derive(Drop)]
pub struct BoundBox {
    pub block: BlockType,
    /// The place of its instance among the declarations.
    pub instance: usize,
    /// The sources of its Boolean inputs.
    pub bits: [Source; 4],
    pub int: Source,
    pub time: Source,
    /// Its output pins by row.
    pub outputs: Vec<BoundOutput>,
}

/// Takes the state of the block at a place. A ladder has a block of that type there.
fn take_state(slots: &Slots, place: usize, block: BlockType, state: &mut BlockState)
    ensures { state.new ≡ state_in block (slice_get slots.now place) }
{
    if let Some(instance) = slots.block(place) {
        *state = instance.state;
    } else {
        *state = BlockState::initial(block);
    }
}

impl BoundBox {
    #[tactic(auto, unfolding(crate::specs::Steps::BoxSteps::box_inputs))]
    /// The inputs that a latch reads.
    fn latch_inputs(&self, slots: &Slots, bits: &[bool]) -> PinsIn
        ensures { result ≡ read_by BlockType.SR (box_inputs self.now slots.now bits.now) }
    {
        PinsIn {
            bits: [
                self.bits[0].is_on(slots, bits),
                self.bits[1].is_on(slots, bits),
                false,
                false,
            ],
            int: 0,
            time: 0,
        }
    }

    #[tactic(auto, unfolding(crate::specs::Steps::BoxSteps::box_inputs))]
    /// The inputs that a counter in one direction reads.
    fn counter_inputs(&self, slots: &Slots, bits: &[bool]) -> PinsIn
        ensures { result ≡ read_by BlockType.CTU (box_inputs self.now slots.now bits.now) }
    {
        PinsIn {
            bits: [
                self.bits[0].is_on(slots, bits),
                self.bits[1].is_on(slots, bits),
                false,
                false,
            ],
            int: self.int.int(slots),
            time: 0,
        }
    }

    #[tactic(auto, unfolding(crate::specs::Steps::BoxSteps::box_inputs))]
    /// The inputs that a counter in both directions reads.
    fn up_down_inputs(&self, slots: &Slots, bits: &[bool]) -> PinsIn
        ensures { result ≡ read_by BlockType.CTUD (box_inputs self.now slots.now bits.now) }
    {
        PinsIn {
            bits: [
                self.bits[0].is_on(slots, bits),
                self.bits[1].is_on(slots, bits),
                self.bits[2].is_on(slots, bits),
                self.bits[3].is_on(slots, bits),
            ],
            int: self.int.int(slots),
            time: 0,
        }
    }

    #[tactic(auto, unfolding(crate::specs::Steps::BoxSteps::box_inputs))]
    /// The inputs that a timer reads.
    fn timer_inputs(&self, slots: &Slots, bits: &[bool]) -> PinsIn
        ensures { result ≡ read_by BlockType.TON (box_inputs self.now slots.now bits.now) }
    {
        PinsIn {
            bits: [self.bits[0].is_on(slots, bits), false, false, false],
            int: 0,
            time: self.time.time(slots),
        }
    }

    /// The inputs that a block of this type reads.
    fn inputs(&self, block: BlockType, slots: &Slots, bits: &[bool]) -> PinsIn
        ensures { result ≡ read_by block (box_inputs self.now slots.now bits.now) }
    {
        match block {
            BlockType::SR | BlockType::RS => self.latch_inputs(slots, bits),
            BlockType::CTU | BlockType::CTD => self.counter_inputs(slots, bits),
            BlockType::CTUD => self.up_down_inputs(slots, bits),
            BlockType::TP | BlockType::TON | BlockType::TOF => self.timer_inputs(slots, bits),
        }
    }

    /// Makes what a step of its block leaves, dt milliseconds after the one before.
    pub fn step(&self, slots: &Slots, bits: &[bool], dt: u32, made: &mut Instance)
        ensures { made.new ≡ box_result self.now slots.now dt bits.now }
    {
        take_state(slots, self.instance, self.block, &mut made.state);
        let pins = self.inputs(made.state.block, slots, bits);
        made.outputs = made.state.step(&pins, dt);
    }
}
