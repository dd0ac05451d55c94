ghost use Rattle.std.specs.Prelude.{◌≡◌, ◌↔◌, IsTrue, MatchOption, []};
ghost use Rattle.network.specs.Networks.{PrecedesByRow};
ghost use Rattle.network.specs.Steps.Ranks.{IsFirstPlaceOf};

use drawings::Place;

/// Whether one place comes before another, by row and then column.
pub fn is_before(place: Place, other: Place) -> bool
    ensures { IsTrue result ↔ PrecedesByRow place other }
{
    place.row < other.row || (place.row == other.row && place.column < other.column)
}

/// The first of some places, by row and then column.
pub fn first_of(places: &[Place]) -> Option<Place>
    ensures { MatchOption result (places.now ≡ []) (IsFirstPlaceOf places.now) }
{
    let mut first = *places.first()?;
    for place in places {
        if is_before(*place, first) {
            first = *place;
        }
    }
    Some(first)
}
