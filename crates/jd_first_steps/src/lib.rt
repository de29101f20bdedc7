//! The steps of the first rules: in a sorted sequent they are sound, and their premises are sorted.
#![tactic(auto)]

ghost use Rattle.jd_first_steps.specs.SoundSteps.{RowsAreSound, RewritingIsSound, FocusKeepsTruth, InstancesAreSound, SimplifyNeedsPremise};
ghost use Rattle.jd_first_steps.specs.SortedSteps.{SequentsStaySorted, InstancesKeepSorted};

mod rules;

pub use rules::FirstRule;

/// A whole formula may be taken apart: where it is refuted, one of the goals is.
pub fn rows_are_sound()
    ensures { RowsAreSound }
{}

/// A formula at any place may be put for one of the same truth.
pub fn rewriting_is_sound()
    ensures { RewritingIsSound }
{}

/// Code at a focus may be put for code that runs alike, or runs so after an update that goes before the modality.
pub fn focus_keeps_truth()
    ensures { FocusKeepsTruth }
{}

/// Each instance of a first rule is a sound step for each task, in a sorted sequent.
pub fn instances_are_sound()
    ensures { InstancesAreSound }
{}

/// In a sequent that is not sorted `simplify` need not be: the right side of an update can have another sort than its variable.
pub fn simplify_needs_premise()
    ensures { SimplifyNeedsPremise }
{}

/// What is found in a sorted sequent is sorted, and so is the sequent with something sorted there.
pub fn sequents_stay_sorted()
    ensures { SequentsStaySorted }
{}

/// The premises of an instance are sorted where the sequent is.
pub fn instances_keep_sorted()
    ensures { InstancesKeepSorted }
{}
