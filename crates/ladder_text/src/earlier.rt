ghost use Rattle.std.specs.Prelude.{◌≡◌};
ghost use Rattle.ladder_text.specs.Places.{is_before};
ghost use Rattle.ladder_text.specs.Steps.Search.{or_earlier};

use drawings::Place;

/// Whether a place comes before another one by row and then column.
fn is_before(place: Place, other: Place) -> bool
    ensures { result ≡ is_before place other }
{
    place.row < other.row || (place.row == other.row && place.column < other.column)
}

/// A place, or another one that comes before it by row and then column.
pub fn or_earlier(place: Place, other: Option<Place>) -> Place
    ensures { result ≡ or_earlier place other }
{
    match other {
        Some(other) if is_before(other, place) => other,
        _ => place,
    }
}
