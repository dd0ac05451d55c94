ghost use Rattle.std.specs.Prelude.{OnOk};
ghost use Rattle.text_lines.specs.Growing.{GrowsBy};
ghost use Rattle.text_lines.specs.LineParts.{value_text};

use std::alloc::AllocError;
use std::fmt::Write;
use std_blocks::Value;

/// Writes a value, as `1`, `-7` or `T#10ms`, behind a line.
pub fn push_value(line: &mut String, value: Value) -> Result<(), AllocError>
    ensures { OnOk result (GrowsBy line.old line.new (value_text value)) }
{
    match value {
        Value::Bool(true) => line.push_str("1"),
        Value::Bool(false) => line.push_str("0"),
        Value::Int(number) => write!(line, "{number}"),
        Value::Time(time) => write!(line, "T#{time}ms"),
    }
}
