ghost use Rattle.jd_jml_trimmed.specs.Trimmed.{DerivationsAreTrimmed};

/// The JML of a place has a derivation without the words that are left out, which stands for the same clauses.
pub fn derivations_are_trimmed()
    ensures { DerivationsAreTrimmed }
{}
