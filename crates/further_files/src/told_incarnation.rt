use text_lines::{behind, number_of};

/// What stands behind the first of these words with which a note begins, be there a line feed before it.
fn behind_start(note: &[u8]) -> Option<&[u8]> {
    match behind(note, b"\nSTART ") {
        Some(rest) => Some(rest),
        None => behind(note, b"RESTART "),
    }
}

/// The digits with which a text begins.
fn digits_of(text: &[u8]) -> &[u8] {
    match text.iter().position(|c| !c.is_ascii_digit()) {
        Some(end) => text.split_at(end).0,
        None => text,
    }
}

/// The incarnation in which a resource starts or restarts, where a note tells it.
pub(crate) fn told_incarnation(resource: &[u8], note: &[u8]) -> Option<u32> {
    let rest = behind(behind_start(note)?, resource)?;
    number_of(digits_of(behind(rest, b" ")?))
}
