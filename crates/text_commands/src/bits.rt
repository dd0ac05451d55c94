//! BOOL variables, their digits, and what stands around a `=`.

ghost use Rattle.std.specs.Prelude.{◌≡◌, ◌↔◌, IsTrue};
ghost use Rattle.text_commands.specs.Rows.{AreDigits, digits_in, is_bool, is_zero_or_one, name_in};

use declared_names::{Declared, Kind};

/// Whether it is a BOOL variable.
pub fn is_bool_variable(declared: Declared) -> bool
    ensures { result ≡ is_bool declared }
{
    match declared {
        Declared::Input(kind) | Declared::Output(kind) | Declared::Local(kind) => {
            kind == Kind::Bool
        }
        Declared::Instance(_) => false,
    }
}

const MOST_DIGITS: usize = 1000;

/// Whether a text is 1 to 1,000 digits 0 or 1.
pub(crate) fn are_digits(text: &str) -> bool
    ensures { IsTrue result ↔ AreDigits text.now }
{
    let most = MOST_DIGITS;
    0 < text.len() && text.len() <= most && text.bytes().all(|c| c == b'0' || c == b'1')
}

/// What stands before the first `=`, and what behind it; all and nothing, where there is none.
pub fn split_at_equals(text: &str) -> (&str, &str)
    ensures before { result.0.now ≡ name_in text.now }
    ensures behind { result.1.now ≡ digits_in text.now }
{
    match text.split_once('=') {
        Some(parts) => parts,
        None => (text, ""),
    }
}
