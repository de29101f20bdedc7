ghost use Rattle.jd_static_types.specs.Types.{GivenTypes};

/// A law, without code: where each type that is written is known, an expression that gives a value gives one of its type (JLS 15.3).
pub fn given_types()
    ensures { GivenTypes }
{}
