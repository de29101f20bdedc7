ghost use Rattle.jd_task_classes.specs.OneClass.{OneClassHasAProgram};

/// There are programs for which such tables stand: one with a class beside those that are always there.
pub fn one_class_has_a_program()
    ensures { OneClassHasAProgram }
{}
