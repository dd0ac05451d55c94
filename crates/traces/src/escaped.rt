ghost use Rattle.std.specs.Prelude.{◌≡◌, OnOk};
ghost use Rattle.text_lines.specs.Growing.{GrowsBy};
ghost use Rattle.traces.specs.Escaped.{escaped, escaped_char, is_no_xml};

use std::alloc::AllocError;

/// Whether no document of XML has this character.
fn is_no_xml(sign: char) -> bool
    ensures { result ≡ is_no_xml sign }
{
    let code = sign as u32;
    code < 32 || code == 65534 || code == 65535
}

/// Writes a character into a document of XML.
fn push_char(text: &mut String, sign: char) -> Result<(), AllocError>
    ensures { OnOk result (GrowsBy text.old text.new (escaped_char sign)) }
{
    if sign == '<' {
        return text.push_str("&lt;");
    }
    if sign == '>' {
        return text.push_str("&gt;");
    }
    if sign == '&' {
        return text.push_str("&amp;");
    }
    if is_no_xml(sign) {
        return text.push_str("?");
    }
    text.push(sign)
}

/// Writes a text into a document of XML.
pub fn push_escaped(text: &mut String, shown: &str) -> Result<(), AllocError>
    ensures { OnOk result (GrowsBy text.old text.new (escaped shown.now)) }
{
    for sign in shown.chars() {
        push_char(text, sign)?;
    }
    Ok(())
}
