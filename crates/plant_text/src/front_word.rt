//! How long the word is that a text begins with.

ghost use Rattle.std.specs.Prelude.{◌≡◌, ◌≤◌, ◌<◌, IsTrue, length, take, drop, take_while};
ghost use Rattle.plant_text.specs.Words.{is_name_char, is_run_char, front_len};
ghost use Rattle.plant_text.specs.Spelling.{is_parted};
ghost use Rattle.plant_text.specs.Steps.Lexing.{letters};

/// A letter, a digit or an underscore.
fn is_name_char(c: u8) -> bool
    ensures { result ≡ is_name_char c }
{
    c.is_ascii_alphanumeric() || c == b'_'
}

fn is_run_char(c: u8) -> bool
    ensures { result ≡ is_run_char c }
{
    is_name_char(c) || c == b'#'
}

fn letters_len(text: &[u8]) -> usize
    ensures { result ≡ length (letters text.now) }
{
    text.iter().take_while(|c| is_name_char(**c)).count()
}

/// The letters, digits and underscores that a text begins with.
pub fn letters(text: &[u8]) -> &[u8]
    ensures { result.now ≡ letters text.now }
{
    &text[..letters_len(text)]
}

/// What follows the first characters of a text.
pub fn behind(text: &[u8], len: usize) -> &[u8]
    ensures { result.now ≡ drop len text.now }
{
    &text[len.min(text.len())..]
}

fn run_len(text: &[u8]) -> usize
    ensures { result ≡ length (take_while is_run_char text.now) }
{
    text.iter().take_while(|c| is_run_char(**c)).count()
}

/// The length of the word that a text begins with: letters, digits, `_` and `#`, also behind `%`; or `:=`; or one
/// character.
pub fn word_len(text: &[u8]) -> usize
    ensures bound { result ≤ length text.now }
    ensures some { 0 < length text.now → 0 < result }
    ensures len { result ≡ front_len text.now }
    ensures parted { IsTrue (is_parted (take result text.now) (drop result text.now)) }
{
    match text {
        [b':', b'=', ..] => 2,
        [b'%', more @ ..] => 1 + run_len(more),
        [c, ..] if is_run_char(*c) => run_len(text),
        [_, ..] => 1,
        [] => 0,
    }
}
