use gate_words::{IntWord, TimeWord};
use gates::{Gates, Signal};
use std_blocks::BlockType;

/// A counter in one direction.
#[derive(Clone, Copy, Debug)]
pub struct EncodedCounter {
    /// CU or CD in its last step.
    pub last: Signal,
    pub q: Signal,
    /// CV.
    pub count: IntWord,
}

/// A counter up and down.
#[derive(Clone, Copy, Debug)]
pub struct EncodedUpDown {
    /// CU in its last step.
    pub last_up: Signal,
    /// CD in its last step.
    pub last_down: Signal,
    pub qu: Signal,
    pub qd: Signal,
    /// CV.
    pub count: IntWord,
}

/// A timer.
#[derive(Clone, Copy, Debug)]
pub struct EncodedTimer {
    /// IN in its last step.
    pub last_in: Signal,
    /// Q.
    pub on: Signal,
    /// ET.
    pub elapsed: TimeWord,
}

/// A block of the drawing: its state and its stored outputs.
#[derive(Clone, Copy, Debug)]
pub enum EncodedInstance {
    /// Q1.
    SR(Signal),
    /// Q1.
    RS(Signal),
    CTU(EncodedCounter),
    CTD(EncodedCounter),
    CTUD(EncodedUpDown),
    TP(EncodedTimer),
    TON(EncodedTimer),
    TOF(EncodedTimer),
}

impl EncodedCounter {
    ghost use Rattle.std.specs.Prelude.{◌≡◌, ℕ, Bool};
    ghost use Rattle.gates.specs.Gates.{Agrees};
    ghost use Rattle.block_gates.specs.Blocks.{IsNewCounter};

    /// A counter before its first step.
    fn initial(gates: &Gates) -> EncodedCounter
        ensures { (v : ℕ → Bool) → Agrees v gates.now → IsNewCounter v result }
    {
        let off = gates.constant(false);
        let none = IntWord::zero(gates);
        EncodedCounter {
            last: off,
            q: off,
            count: none,
        }
    }
}

impl EncodedUpDown {
    ghost use Rattle.std.specs.Prelude.{◌≡◌, ℕ, Bool};
    ghost use Rattle.gates.specs.Gates.{Agrees};
    ghost use Rattle.block_gates.specs.Blocks.{IsNewUpDown};

    /// A counter before its first step.
    fn initial(gates: &Gates) -> EncodedUpDown
        ensures { (v : ℕ → Bool) → Agrees v gates.now → IsNewUpDown v result }
    {
        let off = gates.constant(false);
        let none = IntWord::zero(gates);
        EncodedUpDown {
            last_up: off,
            last_down: off,
            qu: off,
            qd: off,
            count: none,
        }
    }
}

impl EncodedTimer {
    ghost use Rattle.std.specs.Prelude.{◌≡◌, ℕ, Bool};
    ghost use Rattle.gates.specs.Gates.{Agrees};
    ghost use Rattle.block_gates.specs.Blocks.{IsNewTimer};

    /// A timer before its first step.
    fn initial(gates: &Gates) -> EncodedTimer
        ensures { (v : ℕ → Bool) → Agrees v gates.now → IsNewTimer v result }
    {
        let off = gates.constant(false);
        let none = TimeWord::zero(gates);
        EncodedTimer {
            last_in: off,
            on: off,
            elapsed: none,
        }
    }
}

impl EncodedInstance {
    ghost use Rattle.std.specs.Prelude.{◌≡◌, ℕ, Bool, false, pos};
    ghost use Rattle.gates.specs.Gates.{Agrees};
    ghost use Rattle.std_blocks.specs.Blocks.{initial};
    ghost use Rattle.block_gates.specs.Blocks.{type_of, state_at, outputs_at, shown};

    /// A block of this type before its first step: all is OFF, 0 and T#0ms.
    pub fn initial(gates: &Gates, block: BlockType) -> EncodedInstance
        ensures kind { type_of result ≡ block }
        ensures state { (v : ℕ → Bool) → Agrees v gates.now → state_at v result ≡ initial block }
        ensures outputs { (v : ℕ → Bool) → Agrees v gates.now → outputs_at v result ≡ shown false false (pos 0) 0 }
    {
        match block {
            BlockType::SR => EncodedInstance::SR(gates.constant(false)),
            BlockType::RS => EncodedInstance::RS(gates.constant(false)),
            BlockType::CTU => EncodedInstance::CTU(EncodedCounter::initial(gates)),
            BlockType::CTD => EncodedInstance::CTD(EncodedCounter::initial(gates)),
            BlockType::CTUD => EncodedInstance::CTUD(EncodedUpDown::initial(gates)),
            BlockType::TP => EncodedInstance::TP(EncodedTimer::initial(gates)),
            BlockType::TON => EncodedInstance::TON(EncodedTimer::initial(gates)),
            BlockType::TOF => EncodedInstance::TOF(EncodedTimer::initial(gates)),
        }
    }
}
