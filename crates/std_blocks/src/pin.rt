ghost use Rattle.std.specs.Prelude.{◌≡◌, IfSome};
ghost use Rattle.std_blocks.specs.Pins.{latch_pins, counter_pins, up_down_pins, timer_pins, named, input, output, pin_of, IsPlaced};

use crate::block_type::BlockType;

/// Which field of `PinsIn` or `PinsOut` a pin is.
#[derive(Clone, Copy, Debug, PartialEq, Eq)]
pub enum Field {
    /// The bit at this place, from 0.
    Bit(usize),
    Int,
    Time,
}

/// A pin of a block.
#[derive(Clone, Copy, Debug, PartialEq, Eq)]
pub struct Pin {
    /// Whether it stands on the left side of a box, as inputs do.
    pub left: bool,
    pub field: Field,
}

fn input_pin(field: Field) -> Pin
    ensures { result ≡ input field }
{
    Pin { left: true, field }
}

fn output_pin(field: Field) -> Pin
    ensures { result ≡ output field }
{
    Pin { left: false, field }
}

fn latch_pin(name: &str, set: &str, reset: &str) -> Option<Pin>
    ensures { result ≡ named (latch_pins set.now reset.now) name.now }
{
    if name.eq_ignore_ascii_case(set) {
        Some(input_pin(Field::Bit(0)))
    } else if name.eq_ignore_ascii_case(reset) {
        Some(input_pin(Field::Bit(1)))
    } else if name.eq_ignore_ascii_case("Q1") {
        Some(output_pin(Field::Bit(0)))
    } else {
        None
    }
}

fn counter_pin(name: &str, count: &str, reset: &str) -> Option<Pin>
    ensures { result ≡ named (counter_pins count.now reset.now) name.now }
{
    if name.eq_ignore_ascii_case(count) {
        Some(input_pin(Field::Bit(0)))
    } else if name.eq_ignore_ascii_case(reset) {
        Some(input_pin(Field::Bit(1)))
    } else if name.eq_ignore_ascii_case("PV") {
        Some(input_pin(Field::Int))
    } else if name.eq_ignore_ascii_case("Q") {
        Some(output_pin(Field::Bit(0)))
    } else if name.eq_ignore_ascii_case("CV") {
        Some(output_pin(Field::Int))
    } else {
        None
    }
}

fn up_down_pin(name: &str) -> Option<Pin>
    ensures { result ≡ named up_down_pins name.now }
{
    if name.eq_ignore_ascii_case("CU") {
        Some(input_pin(Field::Bit(0)))
    } else if name.eq_ignore_ascii_case("CD") {
        Some(input_pin(Field::Bit(1)))
    } else if name.eq_ignore_ascii_case("R") {
        Some(input_pin(Field::Bit(2)))
    } else if name.eq_ignore_ascii_case("LD") {
        Some(input_pin(Field::Bit(3)))
    } else if name.eq_ignore_ascii_case("PV") {
        Some(input_pin(Field::Int))
    } else if name.eq_ignore_ascii_case("QU") {
        Some(output_pin(Field::Bit(0)))
    } else if name.eq_ignore_ascii_case("QD") {
        Some(output_pin(Field::Bit(1)))
    } else if name.eq_ignore_ascii_case("CV") {
        Some(output_pin(Field::Int))
    } else {
        None
    }
}

fn timer_pin(name: &str) -> Option<Pin>
    ensures { result ≡ named timer_pins name.now }
{
    if name.eq_ignore_ascii_case("IN") {
        Some(input_pin(Field::Bit(0)))
    } else if name.eq_ignore_ascii_case("PT") {
        Some(input_pin(Field::Time))
    } else if name.eq_ignore_ascii_case("Q") {
        Some(output_pin(Field::Bit(0)))
    } else if name.eq_ignore_ascii_case("ET") {
        Some(output_pin(Field::Time))
    } else {
        None
    }
}

impl BlockType {
    /// The pin of this type with this name, without regard to case, on either side.
    /// The place of a bit is below 4 for an input and below 2 for an output.
    #[tactic(auto, unfolding(crate::specs::Pins::pin_of))]
    pub fn pin(self, name: &str) -> Option<Pin>
        ensures value { result ≡ pin_of self name.now }
        ensures place { IfSome result IsPlaced }
    {
        match self {
            BlockType::SR => latch_pin(name, "S1", "R"),
            BlockType::RS => latch_pin(name, "S", "R1"),
            BlockType::CTU => counter_pin(name, "CU", "R"),
            BlockType::CTD => counter_pin(name, "CD", "LD"),
            BlockType::CTUD => up_down_pin(name),
            BlockType::TP | BlockType::TON | BlockType::TOF => timer_pin(name),
        }
    }
}
