//! Comments: rows that begin with `(*` and end with `*)`.

ghost use Rattle.std.specs.Prelude.{◌≡◌, ◌==◌, IfOk, map, string_bytes};
ghost use Rattle.std.specs.List.{slice_split};
ghost use Rattle.text_commands.specs.Comments.{closes, emptied, is_end, is_comment, is_enclosed, without_comments};

use std::alloc::{AllocError, Global};

/// Whether `*)` begins with this character.
fn is_end(first: u8, more: &[u8]) -> bool
    ensures { result ≡ is_end first more.now }
{
    match more {
        [second, ..] => first == b'*' && *second == b')',
        [] => false,
    }
}

/// Whether what stands behind `(*` ends with the first `*)`.
fn closes(behind: &[u8]) -> bool
    ensures { result ≡ closes behind.now }
{
    let mut rest = behind;
    while let [first, more @ ..] = rest {
        if is_end(*first, more) {
            return more.len() == 1;
        }
        rest = more;
    }
    false
}

/// Whether a text begins with `(*`, and ends with the first `*)` behind that.
fn is_enclosed(text: &[u8]) -> bool
    ensures { result ≡ is_enclosed text.now }
{
    match text {
        [b'(', b'*', behind @ ..] => closes(behind),
        _ => false,
    }
}

/// Whether a row is a comment, blanks at both ends aside.
fn is_comment(row: &str) -> bool
    ensures { result ≡ is_comment row.now }
{
    is_enclosed(row.trim().as_bytes())
}

/// A row, or an empty one in the place of a comment.
fn emptied(row: &str) -> &str
    ensures { result.now ≡ emptied row.now }
{
    if is_comment(row) { "" } else { row }
}

/// The rows of a text, its comments emptied.
fn emptied_rows<'a>(alloc: Global, text: &'a str) -> Result<Vec<&'a str>, AllocError>
    ensures { IfOk result (λ rows. map (λ row. row.now) rows.items ≡ map emptied (slice_split (λ c. c == 10) text.now)) }
{
    let mut rows = Vec::new(alloc);
    for row in text.split('\n') {
        rows.push(emptied(row))?;
    }
    Ok(rows)
}

/// The text with its comments emptied.
pub fn without_comments(alloc: Global, text: &str) -> Result<String, AllocError>
    ensures { IfOk result (λ read. string_bytes read ≡ without_comments text.now) }
{
    emptied_rows(alloc, text)?.join(alloc, "\n")
}
