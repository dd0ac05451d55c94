//! The line that tells an evaluation.

ghost use Rattle.std.specs.Prelude.{OnOk};
ghost use Rattle.text_lines.specs.Growing.{GrowsBy};
ghost use Rattle.world.specs.RunLines.{name_text, evaluation_line};

use evaluation::Evaluation;
use plant::Plant;
use std::alloc::AllocError;
use std::fmt::Write;
use text_lines::{push_gives, push_takes, push_task};

/// Writes which evaluation it is behind a line.
fn push_name(
    line: &mut String,
    plant: &Plant,
    message: u64,
    evaluation: &Evaluation,
) -> Result<(), AllocError>
    ensures { OnOk result (GrowsBy line.old line.new (name_text plant.now message evaluation.now.name)) }
{
    let name = evaluation.name();
    let incarnation = name.incarnation;
    let number = name.number;
    write!(line, "EVAL {message} ")?;
    push_task(line, plant, name.task)?;
    write!(line, " {incarnation}.{number}")
}

/// Writes the line of an evaluation, such as `EVAL 2 R2.SLOW 1.1 TAKES R1.FAST=1.1 GIVES B.SEEN=1 B.HIT=0`, behind what
/// is there. `message` is the place of the evaluation in its run or book, counted from 1.
pub fn push_evaluation(
    line: &mut String,
    plant: &Plant,
    message: u64,
    evaluation: &Evaluation,
) -> Result<(), AllocError>
    ensures { OnOk result (GrowsBy line.old line.new (evaluation_line plant.now message evaluation.now)) }
{
    push_name(line, plant, message, evaluation)?;
    line.push_str(" TAKES ")?;
    push_takes(line, plant, evaluation.takes())?;
    line.push_str(" GIVES ")?;
    push_gives(line, evaluation.code(), evaluation.outputs().values())?;
    line.push_str("\n")
}
