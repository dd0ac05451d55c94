//! Which input may say what.

ghost use Rattle.std.specs.Prelude.{◌≡◌};
ghost use Rattle.cycle.specs.Origins.{verdict_beside_field, verdict_alone, verdict_of};

use crate::field_refusal::FieldRefusal;
use crate::line_word::LineWord;

/// Which of a node's inputs a line comes by.
#[derive(Clone, Copy, Debug, PartialEq, Eq)]
pub enum Origin {
    /// What stands on the resource's addresses.
    Field,
    /// Standard input, where that isn't the field's.
    Neighbours,
}

/// What is done with a line.
#[derive(Clone, Copy, Debug, PartialEq, Eq)]
pub enum Verdict {
    /// It is answered as a line of a node.
    Answer,
    /// It tells what the field is.
    Tell,
    /// It is refused.
    Refuse(FieldRefusal),
}

/// Which inputs a node has: whether one is the field's, and whether its cycle asks for evaluations.
#[derive(Clone, Copy, Debug, PartialEq, Eq)]
pub struct Inlets {
    pub has_field: bool,
    pub cycles: bool,
}

/// What is done with a line of this first word, where there is a field.
fn verdict_beside_field(cycles: bool, origin: Origin, word: LineWord) -> Verdict
    ensures { result ≡ verdict_beside_field cycles origin word }
{
    match (origin, word) {
        (Origin::Field, LineWord::Input) => Verdict::Tell,
        (Origin::Field, LineWord::Evaluate) if cycles => Verdict::Refuse(FieldRefusal::Cycling),
        (Origin::Field, LineWord::Evaluate | LineWord::Restart | LineWord::Idle)
        | (Origin::Neighbours, LineWord::Message | LineWord::Hello | LineWord::Idle) => {
            Verdict::Answer
        }
        _ => Verdict::Refuse(FieldRefusal::NotFromThere),
    }
}

/// What is done with a line of this first word, where there is no field.
fn verdict_alone(cycles: bool, word: LineWord) -> Verdict
    ensures { result ≡ verdict_alone cycles word }
{
    match word {
        LineWord::Evaluate if cycles => Verdict::Refuse(FieldRefusal::Cycling),
        _ => Verdict::Answer,
    }
}

impl Inlets {
    /// What is done with a line of this first word that comes by an input.
    pub fn verdict(self, origin: Origin, word: LineWord) -> Verdict
        ensures { result ≡ verdict_of self origin word }
    {
        if self.has_field {
            verdict_beside_field(self.cycles, origin, word)
        } else {
            verdict_alone(self.cycles, word)
        }
    }
}
