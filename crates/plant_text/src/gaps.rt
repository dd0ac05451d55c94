//! What may stand between words: blanks, tabs, line ends and comments.

ghost use Rattle.std.specs.Prelude.{◌≡◌};
ghost use Rattle.std.specs.Option.{option_map};
ghost use Rattle.plant_text.specs.Steps.Gaps.{behind_comment, behind_star, behind_feed, behind_space, IsBehindGap};

/// What is left behind the first `*)`.
fn behind_comment(text: &[u8]) -> Option<&[u8]>
    ensures { option_map (λ r. r.now) result ≡ behind_comment text.now }
{
    let mut rest = text;
    'chars: while let [c, next, ..] = rest {
        if *c == b'*' && *next == b')' {
            return Some(&rest[2..]);
        }
        rest = &rest[1..];
    }
    None
}

/// What is left behind a comment, behind its parenthesis.
fn behind_star(text: &[u8]) -> Option<&[u8]>
    ensures { option_map (λ r. r.now) result ≡ behind_star text.now }
{
    match text {
        [b'*', inside @ ..] => behind_comment(inside),
        _ => None,
    }
}

fn behind_feed(text: &[u8]) -> Option<&[u8]>
    ensures { option_map (λ r. r.now) result ≡ behind_feed text.now }
{
    match text {
        [b'\n', rest @ ..] => Some(rest),
        _ => None,
    }
}

/// What is left behind one blank, tab, line end or comment.
fn behind_space(text: &[u8]) -> Option<&[u8]>
    ensures { option_map (λ r. r.now) result ≡ behind_space text.now }
{
    match text {
        [b' ' | b'\t' | b'\n', rest @ ..] => Some(rest),
        [b'\r', rest @ ..] => behind_feed(rest),
        [b'(', rest @ ..] => behind_star(rest),
        _ => None,
    }
}

/// What is left behind the gap that a text begins with. An unfinished comment belongs to no gap.
pub fn behind_gap(text: &[u8]) -> &[u8]
    ensures { IsBehindGap text.now result.now }
{
    let mut rest = text;
    'pieces: while let Some(more) = behind_space(rest) {
        rest = more;
    }
    rest
}
