ghost use Rattle.jd_patterns.specs.Foci.{FocusIsOne};

/// A law, without code: what a find looks for in code stands at one focus at most.
pub fn focus_is_one()
    ensures { FocusIsOne }
{}
