ghost use Rattle.jd_specifications.specs.Examples.{MeaningExamples, SpecFaultExamples};

/// Worked examples, without code: which token of JML is refused first, or that none is.
pub fn spec_fault_examples()
    ensures { SpecFaultExamples }
{}

/// Worked examples, without code: what expressions and locations stand for.
pub fn meaning_examples()
    ensures { MeaningExamples }
{}
