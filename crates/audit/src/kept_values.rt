//! The retained values with which a START opens, such as ` H.M=1 H.K=-3`.

ghost use Rattle.std.specs.Prelude.{◌++◌, IfOk, codes};
ghost use Rattle.std.specs.List.{AllZip};
ghost use Rattle.std.specs.Option.{option_map};
ghost use Rattle.text_lines.specs.ReadParts.{IsBehind};
ghost use Rattle.text_lines.specs.Steps.Reading.{IsOfKind, IsRead};
ghost use Rattle.keepers.specs.KeptRetained.{before_value};
ghost use Rattle.live_node.specs.NodeJournal.{kept_text, task_kept_text};
ghost use Rattle.audit.specs.Steps.Reading.{IsKeptOf, AreKeptOf, AreKeptRead};

use crate::beginnings::value_at;
use evaluation::Retained;
use keepers::before_value;
use plant::Plant;
use std::alloc::{AllocError, Global};
use std_blocks::Value;
use task_codes::{RetainedVariable, TaskCode, TaskRef};
use text_lines::behind;

/// What stands behind a blank and a retained variable's name, as ` H.M=`.
#[tactic(auto, using(text_lines::proofs::Parts::behind_both))]
fn behind_variable<'a>(
    alloc: Global,
    text: &'a [u8],
    code: &TaskCode,
    variable: RetainedVariable,
) -> Result<Option<&'a [u8]>, AllocError>
    ensures { IfOk result (λ found. IsBehind text.now (codes " " ++ before_value code.now variable) (option_map (λ rest. rest.now) found)) }
{
    let before = before_value(alloc, code, variable)?;
    match behind(text, b" ") {
        Some(rest) => Ok(behind(rest, before.as_bytes())),
        None => Ok(None),
    }
}

/// The value of a retained variable, where a text begins with its name and that, and the rest.
fn kept_at<'a>(
    alloc: Global,
    text: &'a [u8],
    code: &TaskCode,
    variable: RetainedVariable,
) -> Result<Option<(Value, &'a [u8])>, AllocError>
    ensures { IfOk result (λ found. IsRead (λ value. kept_text code.now (variable, value)) (IsKeptOf variable) 32 text.now
        (option_map (λ r. (r.0, r.1.now)) found)) }
{
    match behind_variable(alloc, text, code, variable)? {
        Some(rest) => Ok(value_at(rest, variable.kind)),
        None => Ok(None),
    }
}

/// The values of a task's retained variables, where a text begins with them, and the rest.
fn task_kept_at<'a>(
    alloc: Global,
    text: &'a [u8],
    code: &TaskCode,
) -> Result<Option<(Retained, &'a [u8])>, AllocError>
    ensures { IfOk result (λ found. IsRead (λ values. task_kept_text (code.now, values)) (AreKeptOf code.now) 32 text.now
        (option_map (λ r. (r.0, r.1.now)) found)) }
{
    let variables = code.retained();
    let mut values = Vec::with_capacity(alloc, variables.len())?;
    let mut rest = text;
    for k in 0..variables.len() {
        let Some((value, behind)) = kept_at(alloc, rest, code, variables[k])? else {
            return Ok(None);
        };
        values.push(value)?;
        rest = behind;
    }
    Ok(Some((Retained::from_values(values), rest)))
}

/// The values of all tasks of a resource, where a text is what a START has of them. Other texts may be read too.
pub(crate) fn all_kept_in(
    alloc: Global,
    text: &[u8],
    plant: &Plant,
    resource: usize,
) -> Result<Option<Vec<Retained>>, AllocError>
    ensures { IfOk result (λ found. AreKeptRead plant.now resource text.now (option_map (λ kept. kept.items) found)) }
{
    // The getter hands out that each task has its code.
    let _resources = plant.resources();
    let tasks = plant.tasks(resource).len();
    let mut kept = Vec::with_capacity(alloc, tasks)?;
    let mut rest = text;
    for task in 0..tasks {
        let Some(code) = plant.code(TaskRef { resource, task }) else {
            return Ok(None);
        };
        let Some((retained, behind)) = task_kept_at(alloc, rest, code)? else {
            return Ok(None);
        };
        kept.push(retained)?;
        rest = behind;
    }
    Ok(Some(kept))
}
