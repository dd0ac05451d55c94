use crate::encoded::{EncodedSlot, EncodedValue};
use block_gates::{EncodedInstance, int_word, time_word};
use declared_names::Kind;
use gates::Signal;
use std_blocks::BlockType;

/// What a slot is, but for its signals.
#[derive(Clone, Copy, Debug, PartialEq, Eq)]
pub enum Shape {
    Variable(Kind),
    Block(BlockType),
}

impl Shape {
    ghost use Rattle.std.specs.Prelude.{◌≡◌};
    ghost use Rattle.scan_gates.specs.States.{width_of};
    ghost use Rattle.block_gates.specs.Signals.{signals_of};

    /// How many signals a block of this type has.
    fn width_of_block(block: BlockType) -> usize
        ensures { result ≡ signals_of block }
    {
        match block {
            BlockType::SR | BlockType::RS => 1,
            BlockType::CTU | BlockType::CTD => 18,
            BlockType::CTUD => 20,
            BlockType::TP | BlockType::TON | BlockType::TOF => 34,
        }
    }

    /// How many signals a slot of this shape has.
    pub fn width(self) -> usize
        ensures { result ≡ width_of self }
    {
        match self {
            Shape::Variable(Kind::Bool) => 1,
            Shape::Variable(Kind::Int) => 16,
            Shape::Variable(Kind::Time) => 32,
            Shape::Block(block) => Shape::width_of_block(block),
        }
    }
}

impl EncodedSlot {
    ghost use Rattle.std.specs.Prelude.{◌≡◌, length};
    ghost use Rattle.scan_gates.specs.States.{shape_of, slot_signals, width_of};

    pub fn shape(&self) -> Shape
        ensures { result ≡ shape_of self.now }
    {
        match self {
            EncodedSlot::Variable(EncodedValue::Bool(_)) => Shape::Variable(Kind::Bool),
            EncodedSlot::Variable(EncodedValue::Int(_)) => Shape::Variable(Kind::Int),
            EncodedSlot::Variable(EncodedValue::Time(_)) => Shape::Variable(Kind::Time),
            EncodedSlot::Block(instance) => Shape::Block(instance.block_type()),
        }
    }

    /// The slot of this shape with these signals: as many as such a slot has.
    pub fn of_signals(shape: Shape, signals: &[Signal]) -> EncodedSlot
        requires { length signals.now ≡ width_of shape }
        ensures shape { shape_of result ≡ shape }
        ensures signals { slot_signals result ≡ signals.now }
    {
        match shape {
            Shape::Variable(Kind::Bool) => EncodedSlot::Variable(EncodedValue::Bool(signals[0])),
            Shape::Variable(Kind::Int) => EncodedSlot::Variable(EncodedValue::Int(int_word(
                signals,
            ))),
            Shape::Variable(Kind::Time) => {
                EncodedSlot::Variable(EncodedValue::Time(time_word(signals)))
            }
            Shape::Block(block) => EncodedSlot::Block(EncodedInstance::of_signals(block, signals)),
        }
    }
}
