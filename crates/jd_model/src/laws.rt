ghost use Rattle.jd_model.specs.ResolvedBodies.{ResolvedBodiesAssignNoHeap, ResolvedBodiesEnd};
ghost use Rattle.jd_model.specs.Laws.{MoreGivesTheSame, AreStable, MayBeTaken, AreCoincident, AreReplaceable, AreSubstituted, AreSubstitutedBySort, AreRenamed, FocusDecides, CreatedStays};
ghost use Rattle.jd_model.specs.UpdatePlaces.{UpdatePlacesArePlaces};

/// More depth of calls or turns of loops give the same outcome of a run that is over.
pub fn more_gives_the_same()
    ensures { MoreGivesTheSame }
{}

/// Where the denial of a truth, a validity, an entry, an exit, an end or of 'kept' and 'usable' fails, it holds.
pub fn are_stable()
    ensures { AreStable }
{}

/// To prove such a statement, what is known only not to be absent may be taken as given.
pub fn may_be_taken()
    ensures { MayBeTaken }
{}

/// Variables and constants that do not occur do not matter (the coincidence lemma).
pub fn are_coincident()
    ensures { AreCoincident }
{}

/// Equal truth of a part gives equal truth of the whole, equal values likewise.
pub fn are_replaceable()
    ensures { AreReplaceable }
{}

/// Shifting and substitution keep values and truth (the substitution lemma).
pub fn are_substituted()
    ensures { AreSubstituted }
{}

/// So does the substitution that `jd_term` computes, where the index has the sort of the term and none of heaps.
pub fn are_substituted_by_sort()
    ensures { AreSubstitutedBySort }
{}

/// Renaming keeps values and truth.
pub fn are_renamed()
    ensures { AreRenamed }
{}

/// What the focused statements do decides what the whole code does, in every context.
pub fn focus_decides()
    ensures { FocusDecides }
{}

/// What is created stays created in a run.
pub fn created_stays()
    ensures { CreatedStays }
{}

/// What is reached through bodies of updates alone is what stands at the place.
pub fn update_places_are_places()
    ensures { UpdatePlacesArePlaces }
{}

/// Runs of resolved bodies end as methods do, and from an entry state no array has a bad length.
pub fn resolved_bodies_end()
    ensures { ResolvedBodiesEnd }
{}

/// Resolved bodies assign no heap variable.
pub fn resolved_bodies_assign_no_heap()
    ensures { ResolvedBodiesAssignNoHeap }
{}
