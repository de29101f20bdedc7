ghost use Rattle.jd_nearest.specs.Laws.{NearestExcludesNone, NearestIsOne};

/// Laws, without code: where nodes have depths, a node has one nearest value at most; and where it has
/// one, it or a node above it has a value.
pub fn nearest_is_one()
    ensures one { NearestIsOne }
    ensures some { NearestExcludesNone }
{}
