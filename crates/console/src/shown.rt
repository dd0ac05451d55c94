ghost use Rattle.std.specs.Prelude.{◌≡◌, Some, encode_utf8};
ghost use Rattle.console.specs.Refusals.{shown, shown_char};

use std::fmt;
use std::fmt::{Display, Formatter};

/// A word of the command line as messages show it: a control character as a question mark, so that none reaches a
/// terminal.
#[derive(Clone, Copy)]
pub struct Shown<'a>(pub &'a str);

/// A character as messages show it.
fn shown_char(sign: char) -> char
    ensures { encode_utf8 result ≡ shown_char sign }
{
    if sign.is_control() { '?' } else { sign }
}

impl Display for Shown<'_> {
    ghost output = { λ word. Some (shown word.0.now) };

    fn fmt<W: fmt::Write>(&self, f: &mut Formatter<W>) -> fmt::Result {
        for sign in self.0.chars() {
            f.write_char(shown_char(sign))?;
        }
        Ok(())
    }
}
