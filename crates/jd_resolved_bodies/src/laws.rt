ghost use Rattle.jd_resolved_bodies.specs.Laws.{BodiesAreResolved};

/// In what is made of a body that is not refused each `break` stands in a block of its label, each literal is a 32-bit integer, and no
/// special variable is assigned (JLS 3.10.1, 14.15).
pub fn bodies_are_resolved()
    ensures { BodiesAreResolved }
{}
