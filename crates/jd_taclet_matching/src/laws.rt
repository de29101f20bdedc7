ghost use Rattle.jd_taclet_matching.specs.Laws.{GivenInTwo};

/// A law, without code: what is given is worked out in two steps, what the text stands for and what it is bound to.
pub fn given_in_two()
    ensures { GivenInTwo }
{}
