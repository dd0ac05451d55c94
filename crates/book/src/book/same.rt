ghost use Rattle.std.specs.Prelude.{◌≡◌};
ghost use Rattle.book.specs.Steps.Deciding.{same_values, same_from};

use evaluation::Image;

/// Whether both have the same values in the same order.
pub fn is_same_image(image: &Image, other: &Image) -> bool
    ensures { result ≡ same_values image.now other.now }
{
    image.same(other)
}

/// Whether both are from one evaluation, or both of nothing.
pub fn is_same_from(from: Option<(u32, u32)>, other: Option<(u32, u32)>) -> bool
    ensures { result ≡ same_from from other }
{
    match from {
        None => other.is_none(),
        Some(pair) => match other {
            None => false,
            Some(other) => pair.0 == other.0 && pair.1 == other.1,
        },
    }
}
