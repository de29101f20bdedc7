//! What updates pushed inward mean: the pushed formula has the truth of the formula under the update.
#![tactic(auto)]

ghost use Rattle.jd_update_truth.specs.PushedExamples.{PushedExamples};
ghost use Rattle.jd_update_truth.specs.UpdateLaws.{ReplacedValues, ReplacedLocations, PushedUnder, PushedUpdate, SimplifiedFormula, DeadPairsDropped, StaySorted, UnsortedUpdatesDiffer};

/// A term under a replacement has the value of the term after the replacement.
pub fn replaced_values()
    ensures { ReplacedValues }
{}

/// A location set under a replacement has the locations of the set after the replacement.
pub fn replaced_locations()
    ensures { ReplacedLocations }
{}

/// A formula under a replacement has the truth of the formula after the replacement.
pub fn pushed_under()
    ensures { PushedUnder }
{}

/// A formula into which an update was pushed has the truth of the formula under the update.
pub fn pushed_update()
    ensures { PushedUpdate }
{}

/// A simplified formula has the truth of the formula.
pub fn simplified_formula()
    ensures { SimplifiedFormula }
{}

/// Pairs of an update whose variables do not occur in the formula do not matter.
pub fn dead_pairs_dropped()
    ensures { DeadPairsDropped }
{}

/// What is made of sorted updates, and a sorted formula into which they are pushed, is sorted.
pub fn updates_stay_sorted()
    ensures { StaySorted }
{}

/// Where a right side has another sort than its variable, the pushed formula can be true and the formula not.
pub fn unsorted_updates_differ()
    ensures { UnsortedUpdatesDiffer }
{}

/// A swap pushed into a comparison, and an update before a modality.
pub fn pushed_examples()
    ensures { PushedExamples }
{}
