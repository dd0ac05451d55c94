ghost use Rattle.std.specs.Prelude.{◌≡◌, IfOk, OnErr};
ghost use Rattle.text_lines.specs.Lines.{Gives, TakesSome};

use crate::bytes::next_byte;
use crate::read_fault::ReadFault;
use std::io::Read;

/// How many bytes a line has at most, its line feed aside.
pub const LONGEST_LINE: usize = 1_000_000;

/// What a reader gave.
#[derive(Clone, Copy, Debug, PartialEq, Eq)]
pub enum Given {
    /// A line, which a line feed ended.
    Line,
    /// A line that isn't empty and that the end of all ended.
    LastLine,
    /// The beginning of a line that has more than `LONGEST_LINE` bytes: one byte more.
    TooLong,
    /// Nothing: the reader is at its end.
    End,
}

/// Reads the next line, without its line feed, in the place of what was in `line`. Nothing behind the line is read.
/// After a fault some of the line may be gone.
pub fn next_line<R: Read>(reader: &mut R, line: &mut Vec<u8>) -> Result<Given, ReadFault>
    ensures ok { IfOk result (Gives (R.remaining reader.old) (R.remaining reader.new) line.new.items) }
    ensures fault { OnErr result (TakesSome (R.remaining reader.old) (R.remaining reader.new)) }
{
    line.clear();
    for _ in 0..=LONGEST_LINE {
        match next_byte(reader)? {
            Some(b'\n') => return Ok(Given::Line),
            Some(byte) => line.push(byte)?,
            None if line.is_empty() => return Ok(Given::End),
            None => return Ok(Given::LastLine),
        }
    }
    Ok(Given::TooLong)
}
