//! What numbers look like, and how much they are.

ghost use Rattle.std.specs.Prelude.{◌≡◌, ◌≤◌, IfSome};
ghost use Rattle.words.specs.Chars.{is_number, is_number_rest};
ghost use Rattle.words.specs.Numbers.{with_digit, digits_value, limited, number_up_to};

/// Digits and single underscores, a digit last.
fn is_number_rest(word: &[u8]) -> bool
    ensures { result ≡ is_number_rest word.now }
{
    let mut rest = word;
    'chars: while let [c, next, ..] = rest {
        if !(c.is_ascii_digit() || (*c == b'_' && next.is_ascii_digit())) {
            return false;
        }
        rest = &rest[1..];
    }
    match rest {
        [c] => c.is_ascii_digit(),
        _ => true,
    }
}

/// Whether a word is a number: decimal digits, with single underscores between them (`1_000`). It has no sign, and it
/// may be as long as it likes.
pub fn is_number(word: &[u8]) -> bool
    ensures { result ≡ is_number word.now }
{
    match word {
        [] => false,
        [c] => c.is_ascii_digit(),
        [c, next, ..] => {
            c.is_ascii_digit()
                && (next.is_ascii_digit() || *next == b'_')
                && is_number_rest(&word[1..])
        }
    }
}

/// The number with a digit behind it, unless it is above the limit. An underscore counts for nothing.
fn with_digit(number: u64, digit: u8, most: u64) -> Option<u64>
    requires { number ≤ most }
    ensures { result ≡ limited most (with_digit number digit) }
{
    if digit == b'_' {
        return Some(number);
    }
    let next = number
        .checked_mul(10)?
        .checked_add(u64::from(digit.saturating_sub(b'0')))?;
    if next <= most { Some(next) } else { None }
}

/// How much some digits are, unless it is above the limit.
pub fn digits_up_to(digits: &[u8], most: u64) -> Option<u64>
    ensures value { result ≡ limited most (digits_value 0 digits.now) }
    ensures within { IfSome result (λ n. n ≤ most) }
{
    let mut number = 0;
    for digit in digits {
        number = with_digit(number, *digit, most)?;
    }
    Some(number)
}

/// How much a number is (see [`is_number`]). `None`: the word is no number, or it is above `most`.
#[tactic(auto, unfolding(crate::specs::Numbers::number_up_to))]
pub fn number_up_to(word: &[u8], most: u64) -> Option<u64>
    ensures value { result ≡ number_up_to most word.now }
    ensures within { IfSome result (λ n. n ≤ most) }
{
    if is_number(word) {
        digits_up_to(word, most)
    } else {
        None
    }
}
