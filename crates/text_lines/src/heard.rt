//! Of which incarnation of each resource was heard.

ghost use Rattle.std.specs.Prelude.{◌≡◌, ◌++◌, IfOk, IfSome, OnOk, Some, codes, length, slice_get};
ghost use Rattle.std.specs.List.{AllByRecursion, AllZip};
ghost use Rattle.std.specs.Option.{option_map};
ghost use Rattle.text_lines.specs.Growing.{GrowsBy};
ghost use Rattle.plant.specs.PlantValue.{ResourceValue};
ghost use Rattle.text_lines.specs.MessageLines.{heard_text, IsSmall};
ghost use Rattle.text_lines.specs.Steps.Reading.{all_heard_text, IsHeardOf, IsRead};

use crate::beginnings::behind;
use crate::behind_parts::behind_three;
use crate::first_words::number_at;
use crate::names::{push_resource, resource_name};
use plant::Plant;
use std::alloc::{AllocError, Global};
use std::fmt::Write;

/// Writes a blank, a resource and of which incarnation of it was heard, as ` R1=2`, behind a line.
fn push_heard(
    line: &mut String,
    plant: &Plant,
    resource: usize,
    incarnation: u32,
) -> Result<(), AllocError>
    ensures { (r : ResourceValue) → slice_get plant.now.resources resource ≡ Some r
        → OnOk result (GrowsBy line.old line.new (heard_text (r, incarnation))) }
{
    line.push_str(" ")?;
    push_resource(line, plant, resource)?;
    write!(line, "={incarnation}")
}

/// Writes that of each resource behind a line.
pub(crate) fn push_all_heard(
    line: &mut String,
    plant: &Plant,
    heard: &[u32],
) -> Result<(), AllocError>
    requires { length heard.now ≡ length plant.now.resources }
    ensures { OnOk result (GrowsBy line.old line.new (all_heard_text plant.now heard.now)) }
{
    for resource in 0..heard.len() {
        push_heard(line, plant, resource, heard[resource])?;
    }
    Ok(())
}

/// Of which incarnation of a resource was heard, where a text begins with that, and the rest.
fn heard_at<'a>(text: &'a [u8], plant: &Plant, resource: usize) -> Option<(u32, &'a [u8])>
    ensures small { IfSome result (λ found. IsSmall found.0) }
    ensures read { (r : ResourceValue) → slice_get plant.now.resources resource ≡ Some r
        → IsRead (λ n. heard_text (r, n)) (IsHeardOf r) 32 text.now (option_map (λ found. (found.0, found.1.now)) result) }
{
    let name = resource_name(plant, resource).as_bytes();
    match behind_three(text, b" ", name, b"=") {
        Some(rest) => number_at(rest, b' '),
        None => None,
    }
}

/// Of which incarnation of each resource was heard, where a text begins with that, and the rest.
fn all_heard_at<'a>(
    alloc: Global,
    text: &'a [u8],
    plant: &Plant,
) -> Result<Option<(Vec<u32>, &'a [u8])>, AllocError>
    ensures each { IfOk result (λ found. IfSome found (λ r. length r.0.items ≡ length plant.now.resources)) }
    ensures small { IfOk result (λ found. IfSome found (λ r. AllByRecursion IsSmall r.0.items)) }
    ensures read { IfOk result (λ found. IsRead (all_heard_text plant.now) (AllZip IsHeardOf plant.now.resources) 32 text.now
        (option_map (λ r. (r.0.items, r.1.now)) found)) }
{
    let mut heard = Vec::new(alloc);
    let mut rest = text;
    for resource in 0..plant.resources() {
        let Some((number, behind)) = heard_at(rest, plant, resource) else {
            return Ok(None);
        };
        heard.push(number)?;
        rest = behind;
    }
    Ok(Some((heard, rest)))
}

/// That of each resource behind ` HEARD`, and the rest.
pub(crate) fn all_heard_behind<'a>(
    alloc: Global,
    text: &'a [u8],
    plant: &Plant,
) -> Result<Option<(Vec<u32>, &'a [u8])>, AllocError>
    ensures each { IfOk result (λ found. IfSome found (λ r. length r.0.items ≡ length plant.now.resources)) }
    ensures small { IfOk result (λ found. IfSome found (λ r. AllByRecursion IsSmall r.0.items)) }
    ensures read { IfOk result (λ found. IsRead (λ hs. codes " HEARD" ++ all_heard_text plant.now hs) (AllZip IsHeardOf plant.now.resources) 32 text.now
        (option_map (λ r. (r.0.items, r.1.now)) found)) }
{
    match behind(text, b" HEARD") {
        Some(rest) => all_heard_at(alloc, rest, plant),
        None => Ok(None),
    }
}
