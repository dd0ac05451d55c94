//! Lines and their words.

ghost use Rattle.std.specs.Prelude.{◌≡◌};
ghost use Rattle.words.specs.Lines.{without_last};
ghost use Rattle.world.specs.ScheduleText.{is_idle};
ghost use Rattle.world.specs.Steps.ReadingLines.{texts};

/// The text without its last byte, where that is `byte`.
pub fn without_last(byte: u8, text: &[u8]) -> &[u8]
    ensures { result.now ≡ without_last byte text.now }
{
    match text {
        [front @ .., last] if *last == byte => front,
        _ => text,
    }
}

/// Whether a line of these words is blank or a comment.
pub fn is_idle(words: &[&[u8]]) -> bool
    ensures { result ≡ is_idle (texts words.now) }
{
    match words {
        [] => true,
        [first, ..] => match *first {
            [c, ..] => *c == b'#',
            [] => false,
        },
    }
}
