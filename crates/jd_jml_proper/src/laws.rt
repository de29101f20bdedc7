ghost use Rattle.jd_jml_proper.specs.Proper.{FaultlessIsProper};

/// In a derivation without fault each cast stands behind a name alone, and the range of each sum is one.
pub fn faultless_is_proper()
    ensures { FaultlessIsProper }
{}
