ghost use Rattle.std.specs.Prelude.{◌≡◌, ◌↔◌, IsTrue};
ghost use Rattle.scan_steps.specs.First.{instance_first};

use std_blocks::{BlockState, BlockType, PinsOut, Value};

/// A block of the drawing: what it keeps, and its stored outputs.
#[derive(Clone, Copy, Debug, PartialEq, Eq)]
pub struct Instance {
    pub state: BlockState,
    pub outputs: PinsOut,
}

impl Instance {
    /// A block of this type before its first step.
    pub fn initial(block: BlockType) -> Self
        ensures { result ≡ instance_first block }
    {
        Instance {
            state: BlockState::initial(block),
            outputs: PinsOut {
                bits: [false; 2],
                int: 0,
                time: 0,
            },
        }
    }

    /// Whether both keep and show the same.
    pub fn same(&self, other: &Self) -> bool
        ensures { IsTrue result ↔ (self.now ≡ other.now) }
    {
        self.state.same(&other.state) && self.outputs.same(&other.outputs)
    }
}

/// What stands at a declared name.
#[derive(Clone, Copy, Debug, PartialEq, Eq)]
pub enum Slot {
    Variable(Value),
    Block(Instance),
}

impl Slot {
    /// Whether both are variables with one value, or blocks that keep and show the same.
    pub fn same(&self, other: &Self) -> bool
        ensures { IsTrue result ↔ (self.now ≡ other.now) }
    {
        match (self, other) {
            (Slot::Variable(value), Slot::Variable(other)) => value.same(other),
            (Slot::Block(block), Slot::Block(other)) => block.same(other),
            _ => false,
        }
    }
}
