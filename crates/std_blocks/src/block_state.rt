ghost use Rattle.std.specs.Prelude.{◌≡◌, ◌↔◌, IsTrue};
ghost use Rattle.std_blocks.specs.declared.block_type.BlockType.TheVariants.{CTU, CTD, CTUD, TP, TON, TOF};
ghost use Rattle.std_blocks.specs.Blocks.{initial, after, outputs_after, state_after, outputs_of, rises, one_more, one_less, run_on};

use crate::block_type::BlockType;
use crate::pins::{PinsIn, PinsOut};

/// What a block keeps between two steps.
#[derive(Clone, Copy, Debug, PartialEq, Eq)]
pub struct BlockState {
    pub block: BlockType,
    /// The output of a latch or a timer.
    pub on: bool,
    /// IN of a timer in its last step.
    pub last_in: bool,
    /// CU of a counter in its last step.
    pub last_cu: bool,
    /// CD of a counter in its last step.
    pub last_cd: bool,
    /// CV of a counter.
    pub count: i16,
    /// ET of a timer, in milliseconds.
    pub elapsed: u32,
}

fn has_risen(last: bool, now: bool) -> bool
    ensures { result ≡ rises last now }
{
    now && !last
}

fn one_more_of(count: i16) -> i16
    ensures { result ≡ one_more count }
{
    if count < i16::MAX { count + 1 } else { count }
}

fn one_less_of(count: i16) -> i16
    ensures { result ≡ one_less count }
{
    if count > i16::MIN { count - 1 } else { count }
}

fn run_on_of(preset: u32, elapsed: u32, dt: u32) -> u32
    ensures { result ≡ run_on preset elapsed dt }
{
    preset.min(elapsed.saturating_add(dt))
}

impl BlockState {
    /// A block of this type before its first step: all is OFF, 0 and T#0ms.
    pub fn initial(block: BlockType) -> Self
        ensures { result ≡ initial block }
    {
        BlockState {
            block,
            on: false,
            last_in: false,
            last_cu: false,
            last_cd: false,
            count: 0,
            elapsed: 0,
        }
    }

    fn step_up(&mut self, pins: &PinsIn)
        ensures { self.new ≡ state_after CTU self.old pins.now 0 }
    {
        if pins.bits[1] {
            self.count = 0;
        } else if has_risen(self.last_cu, pins.bits[0]) {
            self.count = one_more_of(self.count);
        }
        self.last_cu = pins.bits[0];
    }

    fn step_down(&mut self, pins: &PinsIn)
        ensures { self.new ≡ state_after CTD self.old pins.now 0 }
    {
        if pins.bits[1] {
            self.count = pins.int;
        } else if has_risen(self.last_cd, pins.bits[0]) {
            self.count = one_less_of(self.count);
        }
        self.last_cd = pins.bits[0];
    }

    fn step_up_down(&mut self, pins: &PinsIn)
        ensures { self.new ≡ state_after CTUD self.old pins.now 0 }
    {
        let up = has_risen(self.last_cu, pins.bits[0]);
        let down = has_risen(self.last_cd, pins.bits[1]);
        if pins.bits[2] {
            self.count = 0;
        } else if pins.bits[3] {
            self.count = pins.int;
        } else if up && !down {
            self.count = one_more_of(self.count);
        } else if down && !up {
            self.count = one_less_of(self.count);
        }
        self.last_cu = pins.bits[0];
        self.last_cd = pins.bits[1];
    }

    fn step_on_delay(&mut self, pins: &PinsIn, dt: u32)
        ensures { self.new ≡ state_after TON self.old pins.now dt }
    {
        let runs = pins.bits[0] && self.last_in;
        let elapsed = run_on_of(pins.time, self.elapsed, dt);
        self.elapsed = if runs { elapsed } else { 0 };
        self.last_in = pins.bits[0];
        self.on = pins.bits[0] && pins.time <= self.elapsed;
    }

    fn step_off_delay(&mut self, pins: &PinsIn, dt: u32)
        ensures { self.new ≡ state_after TOF self.old pins.now dt }
    {
        if pins.bits[0] {
            self.elapsed = 0;
            self.on = true;
        } else if self.last_in {
            self.elapsed = 0;
            self.on = 0 < pins.time;
        } else if self.on {
            self.elapsed = run_on_of(pins.time, self.elapsed, dt);
            self.on = self.elapsed < pins.time;
        }
        self.last_in = pins.bits[0];
    }

    fn step_pulse(&mut self, pins: &PinsIn, dt: u32)
        ensures { self.new ≡ state_after TP self.old pins.now dt }
    {
        let begins = !self.on && has_risen(self.last_in, pins.bits[0]);
        if self.on {
            self.elapsed = run_on_of(pins.time, self.elapsed, dt);
        } else if begins || !pins.bits[0] {
            self.elapsed = 0;
        }
        self.on = (self.on || begins) && self.elapsed < pins.time;
        self.last_in = pins.bits[0];
    }

    fn outputs(&self, pins: &PinsIn) -> PinsOut
        ensures { result ≡ outputs_of self.now.block self.now pins.now }
    {
        match self.block {
            BlockType::SR | BlockType::RS => PinsOut {
                bits: [self.on, false],
                int: 0,
                time: 0,
            },
            BlockType::CTU => PinsOut {
                bits: [self.count >= pins.int, false],
                int: self.count,
                time: 0,
            },
            BlockType::CTD => PinsOut {
                bits: [self.count <= 0, false],
                int: self.count,
                time: 0,
            },
            BlockType::CTUD => PinsOut {
                bits: [self.count >= pins.int, self.count <= 0],
                int: self.count,
                time: 0,
            },
            BlockType::TP | BlockType::TON | BlockType::TOF => PinsOut {
                bits: [self.on, false],
                int: 0,
                time: self.elapsed,
            },
        }
    }

    /// Whether both are of one type and keep the same.
    pub fn same(&self, other: &Self) -> bool
        ensures { IsTrue result ↔ (self.now ≡ other.now) }
    {
        self.block == other.block
            && self.on == other.on
            && self.last_in == other.last_in
            && self.last_cu == other.last_cu
            && self.last_cd == other.last_cd
            && self.count == other.count
            && self.elapsed == other.elapsed
    }

    /// Makes a step, `dt` milliseconds after the one before, and answers what the block then shows.
    /// Counts stop at the ends of an INT, and times at the preset.
    pub fn step(&mut self, pins: &PinsIn, dt: u32) -> PinsOut
        ensures state { self.new ≡ after self.old pins.now dt }
        ensures outputs { result ≡ outputs_after self.old pins.now dt }
    {
        match self.block {
            BlockType::SR => self.on = pins.bits[0] || (!pins.bits[1] && self.on),
            BlockType::RS => self.on = !pins.bits[1] && (pins.bits[0] || self.on),
            BlockType::CTU => self.step_up(pins),
            BlockType::CTD => self.step_down(pins),
            BlockType::CTUD => self.step_up_down(pins),
            BlockType::TP => self.step_pulse(pins, dt),
            BlockType::TON => self.step_on_delay(pins, dt),
            BlockType::TOF => self.step_off_delay(pins, dt),
        }
        self.outputs(pins)
    }
}
