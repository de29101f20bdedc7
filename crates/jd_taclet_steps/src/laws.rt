ghost use Rattle.jd_taclet_steps.specs.Places.{PlacesAreSurrounded};
ghost use Rattle.jd_taclet_steps.specs.PutTerms.{TermsAreReplaced};
ghost use Rattle.jd_taclet_steps.specs.Steps.{StepsOfSoundRowsAreSound};
ghost use Rattle.jd_taclet_steps.specs.TermPlaces.{TermPlacesAreSurrounded};

/// A law, without code: a step of a sound row, at a closed sequent, leads from valid premises to a valid sequent.
pub fn steps_of_sound_rows_are_sound()
    ensures { StepsOfSoundRowsAreSound }
{}

/// A law, without code: the places of formulas by paths are those that something surrounds, and what is put there is surrounded alike.
pub fn places_are_surrounded()
    ensures { PlacesAreSurrounded }
{}

/// A law, without code: the places of terms by paths are those that something surrounds.
pub fn term_places_are_surrounded()
    ensures { TermPlacesAreSurrounded }
{}

/// A law, without code: a term that is put at a place by its path stands in what surrounds the place.
pub fn terms_are_replaced()
    ensures { TermsAreReplaced }
{}
