//! What a task gave.

ghost use Rattle.std.specs.Prelude.{◌≡◌, OnOk, Some, length, slice_get};
ghost use Rattle.task_codes.specs.declared.task_output.TaskOutput.{TaskOutput};
ghost use Rattle.text_lines.specs.Growing.{GrowsBy};
ghost use Rattle.text_lines.specs.Lists.{give_text, gives_text};

use crate::gaps::push_gap;
use crate::values::push_value;
use std::alloc::AllocError;
use std_blocks::Value;
use task_codes::TaskCode;

/// Writes an output and its value, as `A.N=1`, behind a line.
fn push_give(
    line: &mut String,
    code: &TaskCode,
    output: usize,
    value: Value,
) -> Result<(), AllocError>
    ensures { (o : TaskOutput) → slice_get code.now.outputs output ≡ Some o
        → OnOk result (GrowsBy line.old line.new (give_text code.now (o, value))) }
{
    let Some((instance, name)) = code.output_name(output) else {
        return Ok(());
    };
    line.push_str(instance)?;
    line.push_str(".")?;
    line.push_str(name)?;
    line.push_str("=")?;
    push_value(line, value)
}

/// Writes what was given, as `A.N=1 A.FULL=0`, or `-` for nothing, behind a line. There is one value for each output.
pub fn push_gives(line: &mut String, code: &TaskCode, values: &[Value]) -> Result<(), AllocError>
    requires { length values.now ≡ length code.now.outputs }
    ensures { OnOk result (GrowsBy line.old line.new (gives_text code.now values.now)) }
{
    if values.is_empty() {
        return line.push_str("-");
    }
    for i in 0..values.len() {
        push_gap(line, i)?;
        push_give(line, code, i, values[i])?;
    }
    Ok(())
}
