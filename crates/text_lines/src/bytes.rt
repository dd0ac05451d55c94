ghost use Rattle.std.specs.Prelude.{IfOk, OnErr};
ghost use Rattle.std.specs.Io.KnownBytes.{Keeps};
ghost use Rattle.text_lines.specs.Steps.Bytes.{TakesByte};

use crate::read_fault::ReadFault;
use std::io::{ErrorKind, Read};

/// The next byte of a reader; `None` at its end. A read that a signal interrupts is tried again.
pub fn next_byte<R: Read>(reader: &mut R) -> Result<Option<u8>, ReadFault>
    ensures ok { IfOk result (TakesByte (R.remaining reader.old) (R.remaining reader.new)) }
    ensures fault { OnErr result (Keeps (R.remaining reader.old) (R.remaining reader.new)) }
{
    let mut byte = [0u8];
    for _ in 0..u64::MAX {
        match reader.read(&mut byte) {
            Ok(0) => return Ok(None),
            Ok(_) => return Ok(Some(byte[0])),
            Err(error) => {
                if error.kind() != ErrorKind::Interrupted {
                    return Err(ReadFault::Read);
                }
            }
        }
    }
    Err(ReadFault::Read)
}
