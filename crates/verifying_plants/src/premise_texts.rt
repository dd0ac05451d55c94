//! The line of what verdicts on claims about a plant depend on.

ghost use Rattle.std.specs.Prelude.{◌≡◌, ◌++◌, IfOk, OnOk, map, string_bytes};
ghost use Rattle.text_lines.specs.Growing.{GrowsBy};
ghost use Rattle.verifying_plants.specs.Names.{output_text};
ghost use Rattle.verifying_plants.specs.VerdictTexts.{greatest_text, premise_line, premises, range_text, restart_premises, time_premise, zero_text};

use crate::output_names::push_output;
use plant::Plant;
use plant_claims::{FieldRange, Output, Question};
use std::alloc::{AllocError, Global};
use std_blocks::Value;
use text_lines::push_value;

/// How far apart evaluations are.
fn time_premise(alloc: Global, dt: Option<u32>) -> Result<String, AllocError>
    ensures { IfOk result (λ text. string_bytes text ≡ time_premise dt) }
{
    match dt {
        None => String::from_str(alloc, "each task every INTERVAL"),
        Some(dt) => format!(in alloc; "dt {dt} ms"),
    }
}

/// Writes the greatest value of a word, where it is another one than the least.
fn push_greatest(text: &mut String, least: i16, greatest: i16) -> Result<(), AllocError>
    ensures { OnOk result (GrowsBy text.old text.new (greatest_text least greatest)) }
{
    if greatest <= least {
        return Ok(());
    }
    text.push_str("..")?;
    push_value(text, Value::Int(greatest))
}

/// What an address holds.
fn range_text(alloc: Global, range: FieldRange) -> Result<String, AllocError>
    ensures { IfOk result (λ text. string_bytes text ≡ range_text range) }
{
    match range {
        FieldRange::Bit { number, value } => {
            let mut text = format!(in alloc; "%IX{number}=")?;
            push_value(&mut text, Value::Bool(value))?;
            Ok(text)
        }
        FieldRange::Word {
            number,
            least,
            greatest,
        } => {
            let mut text = format!(in alloc; "%IW{number}=")?;
            push_value(&mut text, Value::Int(least))?;
            push_greatest(&mut text, least, greatest)?;
            Ok(text)
        }
    }
}

fn push_ranges(
    alloc: Global,
    made: &mut Vec<String>,
    ranges: &[FieldRange],
) -> Result<(), AllocError>
    ensures { OnOk result (map (λ p. string_bytes p) made.new.items
        ≡ map (λ p. string_bytes p) made.old.items ++ map range_text ranges.now) }
{
    for range in ranges {
        made.push(range_text(alloc, *range)?)?;
    }
    Ok(())
}

/// A word of the field that is 0.
fn zero_text(alloc: Global, number: u16) -> Result<String, AllocError>
    ensures { IfOk result (λ text. string_bytes text ≡ zero_text number) }
{
    format!(in alloc; "%IW{number}=0")
}

fn push_zeros(alloc: Global, made: &mut Vec<String>, zeros: &[u16]) -> Result<(), AllocError>
    ensures { OnOk result (map (λ p. string_bytes p) made.new.items
        ≡ map (λ p. string_bytes p) made.old.items ++ map zero_text zeros.now) }
{
    for number in zeros {
        made.push(zero_text(alloc, *number)?)?;
    }
    Ok(())
}

fn push_restarts(alloc: Global, made: &mut Vec<String>, restarts: bool) -> Result<(), AllocError>
    ensures { OnOk result (map (λ p. string_bytes p) made.new.items
        ≡ map (λ p. string_bytes p) made.old.items ++ restart_premises restarts) }
{
    if !restarts {
        made.push(String::from_str(alloc, "no restarts")?)?;
    }
    Ok(())
}

fn output_name(alloc: Global, plant: &Plant, output: Output) -> Result<String, AllocError>
    ensures { IfOk result (λ text. string_bytes text ≡ output_text plant.now output) }
{
    let mut text = String::new(alloc);
    push_output(&mut text, plant, output)?;
    Ok(text)
}

fn push_given(
    alloc: Global,
    made: &mut Vec<String>,
    plant: &Plant,
    given: &[Output],
) -> Result<(), AllocError>
    ensures { OnOk result (map (λ p. string_bytes p) made.new.items
        ≡ map (λ p. string_bytes p) made.old.items ++ map (output_text plant.now) given.now) }
{
    for output in given {
        made.push(output_name(alloc, plant, *output)?)?;
    }
    Ok(())
}

/// What verdicts depend on, where these words of the field are 0.
fn premises(alloc: Global, question: &Question, zeros: &[u16]) -> Result<Vec<String>, AllocError>
    ensures { IfOk result (λ made. map (λ p. string_bytes p) made.items ≡ premises question.now zeros.now) }
{
    let mut made = Vec::new(alloc);
    made.push(time_premise(alloc, question.dt)?)?;
    push_ranges(alloc, &mut made, &question.ranges)?;
    push_zeros(alloc, &mut made, zeros)?;
    push_restarts(alloc, &mut made, question.restarts)?;
    push_given(alloc, &mut made, &question.plant, &question.given)?;
    Ok(made)
}

/// Writes the line of what verdicts depend on.
pub(crate) fn push_premise_line(
    alloc: Global,
    text: &mut String,
    question: &Question,
    zeros: &[u16],
) -> Result<(), AllocError>
    ensures { OnOk result (GrowsBy text.old text.new (premise_line question.now zeros.now)) }
{
    let made = premises(alloc, question, zeros)?;
    let joined = made.join(alloc, ", ")?;
    text.push_str("given ")?;
    text.push_str(joined.as_str())?;
    text.push_str("\n")?;
    Ok(())
}
