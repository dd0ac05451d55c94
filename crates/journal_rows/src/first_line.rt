//! The line with which a further file of a journal begins, such as `CONTINUES 2 8013946127 R1 5;`.

ghost use Rattle.std.specs.Prelude.{◌≡◌, IfOk, string_bytes};
ghost use Rattle.journal_rows.specs.ContinuesLine.{begins_with, continues_front, continues_line};

use std::alloc::{AllocError, Global};
use std::fmt::Write;

/// Whether a text begins with these bytes.
pub(crate) fn begins_with(bytes: &[u8], text: &[u8]) -> bool
    ensures { result ≡ begins_with bytes.now text.now }
{
    let [byte, bytes @ ..] = bytes else {
        return true;
    };
    let [first, text @ ..] = text else {
        return false;
    };
    *byte == *first && begins_with(bytes, text)
}

/// What stands in that line before the resource: the file's number, and the digest of the file before.
pub fn continues_front(alloc: Global, number: u64, digest: u64) -> Result<String, AllocError>
    ensures { IfOk result (λ front. string_bytes front ≡ continues_front number digest) }
{
    let mut front = String::new(alloc);
    write!(front, "CONTINUES {number} {digest} ")?;
    Ok(front)
}

/// The line of a resource's file, whose next line is noted in this incarnation.
pub fn continues_line(
    alloc: Global,
    number: u64,
    digest: u64,
    resource: &str,
    incarnation: u32,
) -> Result<String, AllocError>
    ensures { IfOk result (λ line. string_bytes line ≡ continues_line number digest resource.now incarnation) }
{
    let mut line = continues_front(alloc, number, digest)?;
    write!(line, "{resource} {incarnation};\n")?;
    Ok(line)
}
