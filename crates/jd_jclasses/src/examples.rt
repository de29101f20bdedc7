ghost use Rattle.jd_jclasses.specs.Examples.{ClassExamples};

/// Worked files, without code: `class A {} class A {}` and `class E extends E {}` are refused at the second `A` and at `E`.
pub fn class_examples()
    ensures { ClassExamples }
{}
