//! What a task took.

ghost use Rattle.std.specs.Prelude.{OnOk};
ghost use Rattle.text_lines.specs.Growing.{GrowsBy};
ghost use Rattle.text_lines.specs.Lists.{pair_text, take_text, takes_text};

use crate::gaps::push_gap;
use crate::names::push_task;
use evaluation::Take;
use plant::Plant;
use std::alloc::AllocError;
use std::fmt::Write;

/// Writes an incarnation and a number, as `1.2`, or `-` for none, behind a line.
fn push_pair(line: &mut String, pair: Option<(u32, u32)>) -> Result<(), AllocError>
    ensures { OnOk result (GrowsBy line.old line.new (pair_text pair)) }
{
    match pair {
        Some((incarnation, number)) => write!(line, "{incarnation}.{number}"),
        None => line.push_str("-"),
    }
}

/// Writes what was taken from a producer, as `R1.FAST=1.2`, behind a line.
fn push_take(line: &mut String, plant: &Plant, take: &Take) -> Result<(), AllocError>
    ensures { OnOk result (GrowsBy line.old line.new (take_text plant.now take.now)) }
{
    push_task(line, plant, take.producer)?;
    line.push_str("=")?;
    push_pair(line, take.from)
}

/// Writes what was taken, as `R1.FAST=1.2 R3.SLOW=-`, or `-` for nothing, behind a line.
pub fn push_takes(line: &mut String, plant: &Plant, takes: &[Take]) -> Result<(), AllocError>
    ensures { OnOk result (GrowsBy line.old line.new (takes_text plant.now takes.now)) }
{
    if takes.is_empty() {
        return line.push_str("-");
    }
    for i in 0..takes.len() {
        push_gap(line, i)?;
        push_take(line, plant, &takes[i])?;
    }
    Ok(())
}
