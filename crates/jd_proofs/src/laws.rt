ghost use Rattle.jd_proofs.specs.Laws.{OneOutcome};

/// A text has one outcome for obligations of some names.
pub fn one_outcome()
    ensures { OneOutcome }
{}
