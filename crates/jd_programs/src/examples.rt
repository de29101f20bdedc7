ghost use Rattle.jd_programs.specs.Examples.{CaseExamples};

/// A worked example, without code: the constructors, methods and cases of three classes.
pub fn case_examples()
    ensures { CaseExamples }
{}
