ghost use Rattle.jd_jml_places.specs.Places.{PlacesAreApart};

/// Tokens that differ in their places alone have the same clauses but for places, and none of them is refused where the others are not.
pub fn places_are_apart()
    ensures { PlacesAreApart }
{}
