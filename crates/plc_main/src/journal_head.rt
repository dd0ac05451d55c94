//! How a journal begins.

ghost use Rattle.std.specs.Prelude.{◌≡◌};
ghost use Rattle.plc_main.specs.JournalHead.{begins_as_journal, goes_as};

/// Whether a text begins with these letters, or its first line is a beginning of them.
fn goes_as(letters: &[u8], text: &[u8]) -> bool
    ensures { result ≡ goes_as letters.now text.now }
{
    let [letter, letters @ ..] = letters else {
        return true;
    };
    let [first, text @ ..] = text else {
        return true;
    };
    *first == b'\n' || (*first == *letter && goes_as(letters, text))
}

/// Whether a text begins as a journal does: behind empty lines with START, or with what is left of one that was torn.
pub fn begins_as_journal(text: &[u8]) -> bool
    ensures { result ≡ begins_as_journal text.now }
{
    match text {
        [] => true,
        [first, others @ ..] => {
            if *first == b'\n' {
                begins_as_journal(others)
            } else {
                goes_as(b"START ", text)
            }
        }
    }
}
