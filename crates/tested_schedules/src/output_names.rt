//! Outputs by their names.

ghost use Rattle.std.specs.Prelude.{OnOk};
ghost use Rattle.text_lines.specs.Growing.{GrowsBy};
ghost use Rattle.tested_schedules.specs.Expectations.{output_name, variable_name};

use plant::Plant;
use std::alloc::AllocError;
use std::fmt::Write;
use task_codes::{TaskCode, TaskRef};
use text_lines::push_resource;

/// Writes an output of a task as `P.V` behind a text; nothing where there is none.
fn push_variable(text: &mut String, code: &TaskCode, place: usize) -> Result<(), AllocError>
    ensures { OnOk result (GrowsBy text.old text.new (variable_name code.now place)) }
{
    match code.output_name(place) {
        Some((instance, name)) => write!(text, "{instance}.{name}"),
        None => Ok(()),
    }
}

/// Writes an output of a plant as `R.P.V` behind a text, as it was declared.
pub fn push_output(
    text: &mut String,
    plant: &Plant,
    task: TaskRef,
    place: usize,
) -> Result<(), AllocError>
    ensures { OnOk result (GrowsBy text.old text.new (output_name plant.now task place)) }
{
    push_resource(text, plant, task.resource)?;
    text.push_str(".")?;
    match plant.code(task) {
        Some(code) => push_variable(text, code, place),
        None => Ok(()),
    }
}
