ghost use Rattle.std.specs.Prelude.{OnOk, OnErr};
ghost use Rattle.std.specs.Io.KnownBytes.{Appends};
ghost use Rattle.text_lines.specs.Sending.{SendsLess};

use std::io::Write;

/// A writer refused to take all of a text.
#[derive(Clone, Copy, Debug, PartialEq, Eq)]
pub struct WriteFault;

/// Writes the whole text. Any error of the writer, and a write that takes nothing, is a fault; what went out then is a
/// prefix, and not all.
pub fn write_text<W: Write>(writer: &mut W, text: &str) -> Result<(), WriteFault>
    ensures whole { OnOk result (Appends (W.contents writer.old) (W.contents writer.new) text.now) }
    ensures prefix { OnErr result (SendsLess text.now (W.contents writer.old) (W.contents writer.new)) }
{
    let bytes = text.as_bytes();
    let mut done = 0;
    while done < bytes.len() {
        match writer.write(bytes.split_at(done).1) {
            Ok(0) => return Err(WriteFault),
            Ok(n) => done += n,
            Err(_) => return Err(WriteFault),
        }
    }
    Ok(())
}
