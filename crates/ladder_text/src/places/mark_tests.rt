//! What is asked of a mark, and of a character.

ghost use Rattle.std.specs.Prelude.{◌≡◌, ◌||◌};
ghost use Rattle.ladder_text.specs.Places.{is_line, is_vertical, is_box_part, is_symbol};
ghost use Rattle.ladder_text.specs.Faults.{has_meaning};

use drawings::Mark;

pub fn is_line(mark: Mark) -> bool
    ensures { result ≡ is_line mark }
{
    matches!(
        mark,
        Mark::Wire | Mark::Join | Mark::ContactPart | Mark::CoilPart
    )
}

pub fn has_meaning(c: u8) -> bool
    ensures { result ≡ has_meaning c }
{
    c == b' ' || c.is_ascii_alphanumeric() || matches!(c, b'-' | b'|' | b'+' | b'_' | b'.' | b'#')
}

pub fn is_vertical(mark: Mark) -> bool
    ensures { result ≡ is_vertical mark }
{
    matches!(mark, Mark::Join | Mark::Upright)
}

pub fn is_symbol(mark: Mark) -> bool
    ensures { result ≡ is_symbol mark }
{
    matches!(mark, Mark::ContactPart | Mark::CoilPart)
}

pub fn is_taken(mark: Mark) -> bool
    ensures { result ≡ (is_box_part mark || is_symbol mark) }
{
    matches!(mark, Mark::BoxPart | Mark::ContactPart | Mark::CoilPart)
}
