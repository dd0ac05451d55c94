use std::alloc::{AllocError, Global};

/// A word of a plant's text outside comments, or one of the signs `=`, `.` and `,`, with its line.
#[derive(Clone, Copy)]
pub struct PlantWord<'a> {
    pub text: &'a [u8],
    pub line: u64,
}

fn is_word_sign(sign: u8) -> bool {
    sign.is_ascii_alphanumeric() || sign == b'_' || sign == b'#' || sign == b'%'
}

/// Whether a sign is a word of its own.
fn is_own_word(sign: u8) -> bool {
    sign == b'=' || sign == b'.' || sign == b','
}

fn push_word<'a>(
    words: &mut Vec<PlantWord<'a>>,
    text: &'a [u8],
    from: usize,
    to: usize,
    line: u64,
) -> Result<(), AllocError> {
    if let Some(text) = text.get(from..to)
        && !text.is_empty()
    {
        words.push(PlantWord { text, line })?;
    }
    Ok(())
}

/// The words of a plant's text. What stands in its drawings is cut into words likewise.
pub fn plant_words<'a>(alloc: Global, text: &'a [u8]) -> Result<Vec<PlantWord<'a>>, AllocError> {
    let mut words = Vec::new(alloc);
    let mut line: u64 = 1;
    let mut from = 0;
    let mut before = b' ';
    let mut in_comment = false;
    for (at, sign) in text.iter().enumerate() {
        if in_comment || !is_word_sign(*sign) {
            push_word(&mut words, text, from, at, line)?;
            from = at + 1;
        }
        if !in_comment && is_own_word(*sign) {
            push_word(&mut words, text, at, from, line)?;
        }
        in_comment = match (before, *sign) {
            (b'(', b'*') => true,
            (b'*', b')') => false,
            _ => in_comment,
        };
        before = *sign;
        if *sign == b'\n' {
            line = line.saturating_add(1);
        }
    }
    Ok(words)
}
