//! A path as a word for a shell.

ghost use Rattle.std.specs.Prelude.{◌≡◌, IfOk, OnOk, string_bytes};
ghost use Rattle.std.specs.List.{list_all};
ghost use Rattle.text_lines.specs.Growing.{GrowsBy};
ghost use Rattle.console.specs.ShellWord.{is_control, is_plain, quoted, quoted_char, shell_word};

use std::alloc::{AllocError, Global};

/// Whether a shell takes the letter as it stands.
fn is_plain(byte: u8) -> bool
    ensures { result ≡ is_plain byte }
{
    matches!(byte, b'a'..=b'z' | b'A'..=b'Z' | b'0'..=b'9' | b'/' | b'.' | b'_' | b'-' | b'+' | b',' | b':' | b'@')
}

fn is_plain_word(path: &str) -> bool
    ensures { result ≡ list_all is_plain path.now }
{
    path.as_bytes().iter().all(|byte| is_plain(*byte))
}

/// Whether the character is a control character, which is to reach no terminal.
fn is_control(sign: char) -> bool
    ensures { result ≡ is_control sign }
{
    let code = sign as u32;
    code < 32 || (code > 126 && code < 160)
}

/// Writes a character of a text that stands between single quotes.
fn push_quoted_char(word: &mut String, sign: char) -> Result<(), AllocError>
    ensures { OnOk result (GrowsBy word.old word.new (quoted_char sign)) }
{
    if sign == '\'' {
        return word.push_str("'\\''");
    }
    if is_control(sign) {
        return word.push_str("?");
    }
    word.push(sign)
}

/// Writes a text that stands between single quotes.
fn push_quoted(word: &mut String, path: &str) -> Result<(), AllocError>
    ensures { OnOk result (GrowsBy word.old word.new (quoted path.now)) }
{
    for sign in path.chars() {
        push_quoted_char(word, sign)?;
    }
    Ok(())
}

/// The word that a shell takes as this path: between single quotes, unless all letters are plain. A path that begins as an
/// option does has `./` before it. A control character is a question mark, so that none reaches a terminal.
pub(crate) fn shell_word(alloc: Global, path: &str) -> Result<String, AllocError>
    ensures { IfOk result (λ word. string_bytes word ≡ shell_word path.now) }
{
    let mut word = String::from_str(alloc, if path.starts_with('-') { "./" } else { "" })?;
    if is_plain_word(path) {
        word.push_str(path)?;
        return Ok(word);
    }
    word.push_str("'")?;
    push_quoted(&mut word, path)?;
    word.push_str("'")?;
    Ok(word)
}
