//! What a node that runs by itself writes.

ghost use Rattle.std.specs.Prelude.{OnOk};
ghost use Rattle.std.specs.List.{flat_map};
ghost use Rattle.text_lines.specs.Growing.{GrowsBy};
ghost use Rattle.cycle.specs.FieldTexts.{cycle_line, ended_line, input_text, overrun_text, refusal_text, refused_line, taken_line};

use crate::field_refusal::FieldRefusal;
use evaluation::FieldInput;
use plant::Plant;
use std::alloc::AllocError;
use std::fmt::Write;
use std_blocks::Value;
use task_codes::TaskRef;
use text_lines::{push_task, push_value};

/// Writes an input, as ` %IX0=1` or ` %IW2=-7`, behind a line.
fn push_input(line: &mut String, input: FieldInput) -> Result<(), AllocError>
    ensures { OnOk result (GrowsBy line.old line.new (input_text input)) }
{
    match input {
        FieldInput::Bit { number, value } => {
            write!(line, " %IX{number}=")?;
            push_value(line, Value::Bool(value))
        }
        FieldInput::Word { number, value } => {
            write!(line, " %IW{number}=")?;
            push_value(line, Value::Int(value))
        }
    }
}

fn push_inputs(line: &mut String, listed: &[FieldInput]) -> Result<(), AllocError>
    ensures { OnOk result (GrowsBy line.old line.new (flat_map input_text listed.now)) }
{
    for input in listed {
        push_input(line, *input)?;
    }
    Ok(())
}

/// Writes the line that asks for an evaluation, such as `EVAL R1.FAST 10 %IX0=1`, behind a line; without a line feed.
pub fn push_cycle_line(
    line: &mut String,
    plant: &Plant,
    task: TaskRef,
    dt: u32,
    listed: &[FieldInput],
) -> Result<(), AllocError>
    ensures { OnOk result (GrowsBy line.old line.new (cycle_line plant.now task dt listed.now)) }
{
    line.push_str("EVAL ")?;
    push_task(line, plant, task)?;
    write!(line, " {dt}")?;
    push_inputs(line, listed)
}

/// Writes `OVERRUN R.T n` behind a text, where a task skips due moments.
pub fn push_overrun(
    out: &mut String,
    plant: &Plant,
    task: TaskRef,
    skipped: u64,
) -> Result<(), AllocError>
    ensures { OnOk result (GrowsBy out.old out.new (overrun_text plant.now task skipped)) }
{
    if skipped == 0 {
        return Ok(());
    }
    out.push_str("OVERRUN ")?;
    push_task(out, plant, task)?;
    write!(out, " {skipped}\n")
}

/// Writes `INPUT taken` behind a text.
pub fn push_taken(out: &mut String) -> Result<(), AllocError>
    ensures { OnOk result (GrowsBy out.old out.new taken_line) }
{
    out.push_str("INPUT taken\n")
}

/// Writes `FIELD ended` behind a text.
pub fn push_ended(out: &mut String) -> Result<(), AllocError>
    ensures { OnOk result (GrowsBy out.old out.new ended_line) }
{
    out.push_str("FIELD ended\n")
}

fn push_refusal(out: &mut String, refusal: FieldRefusal) -> Result<(), AllocError>
    ensures { OnOk result (GrowsBy out.old out.new (refusal_text refusal)) }
{
    match refusal {
        FieldRefusal::Syntax => out.push_str("Syntax"),
        FieldRefusal::Twice => out.push_str("Twice"),
        FieldRefusal::TooLong => out.push_str("TooLong"),
        FieldRefusal::NotFromThere => out.push_str("NotFromThere"),
        FieldRefusal::Cycling => out.push_str("Cycling"),
    }
}

/// Writes `REFUSED Kind` behind a text.
pub fn push_field_refused(out: &mut String, refusal: FieldRefusal) -> Result<(), AllocError>
    ensures { OnOk result (GrowsBy out.old out.new (refused_line refusal)) }
{
    out.push_str("REFUSED ")?;
    push_refusal(out, refusal)?;
    out.push_str("\n")
}
