ghost use Rattle.jd_bodies.specs.Examples.{CodeExamples, FaultExamples};

/// Worked examples, without code: which token of a body is refused first, or that none is.
pub fn fault_examples()
    ensures { FaultExamples }
{}

/// Worked examples, without code: which code statements stand for.
pub fn code_examples()
    ensures { CodeExamples }
{}
