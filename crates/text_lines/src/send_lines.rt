ghost use Rattle.std.specs.Prelude.{OnOk, OnErr, string_bytes};
ghost use Rattle.text_lines.specs.Sending.{Sends, SendsLess};

use crate::text_output::{WriteFault, write_text};
use std::io::Write;

/// Lines are written once so many bytes of them are made.
const FULL: usize = 65_536;

/// Writes the lines and empties them, if there are many.
pub fn send_full<W: Write>(lines: &mut String, writer: &mut W) -> Result<(), WriteFault>
    ensures ok { OnOk result
        (Sends (string_bytes lines.old) (string_bytes lines.new) (W.contents writer.old) (W.contents writer.new)) }
    ensures less { OnErr result (SendsLess (string_bytes lines.old) (W.contents writer.old) (W.contents writer.new)) }
{
    if lines.len() >= FULL {
        write_text(writer, lines.as_str())?;
        lines.clear();
    }
    Ok(())
}
