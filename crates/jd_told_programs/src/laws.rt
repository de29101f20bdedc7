ghost use Rattle.jd_told_programs.specs.Told.{ToldIsThat};

/// What a task tells is what each program has that it stands for, but for bodies and the look-up of methods.
pub fn told_is_that()
    ensures { ToldIsThat }
{}
