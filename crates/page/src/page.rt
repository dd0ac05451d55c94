ghost use Rattle.std.specs.Prelude.{◌≡◌, ◌++◌, OnOk, IfOk, encode_utf8, string_bytes};
ghost use Rattle.std.specs.List.{flat_map};
ghost use Rattle.std.specs.Str.{chars};
ghost use Rattle.page.specs.Page.{escaped, escaped_sign, page_of};

use crate::page_text::{FOOT, HEAD};
use std::alloc::{AllocError, Global};

/// Writes a sign of the text.
fn push_sign(page: &mut String, sign: char) -> Result<(), AllocError>
    ensures { OnOk result (string_bytes page.new ≡ string_bytes page.old ++ flat_map encode_utf8 (escaped_sign sign)) }
{
    match sign {
        '&' => page.push_str("&amp;"),
        '<' => page.push_str("&lt;"),
        '>' => page.push_str("&gt;"),
        '\r' => page.push_str("&#13;"),
        '\0' => page.push_str("<wbr>"),
        _ => page.push(sign),
    }
}

/// Writes the text.
fn push_escaped(page: &mut String, text: &str) -> Result<(), AllocError>
    ensures { OnOk result (string_bytes page.new ≡ string_bytes page.old ++ flat_map encode_utf8 (escaped (chars text.now))) }
{
    for sign in text.chars() {
        push_sign(page, sign)?;
    }
    Ok(())
}

/// The page of a text: one file of HTML that asks for no other. It is some 100 kB longer than the text, and up to four bytes more for
/// each sign that is escaped.
pub fn page_of(alloc: Global, text: &str) -> Result<String, AllocError>
    ensures { IfOk result (λ page. string_bytes page ≡ page_of text.now) }
{
    let mut page = String::new(alloc);
    page.push_str(HEAD)?;
    push_escaped(&mut page, text)?;
    page.push_str(FOOT)?;
    Ok(page)
}
