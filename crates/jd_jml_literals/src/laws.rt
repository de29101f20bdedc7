ghost use Rattle.jd_jml_literals.specs.Laws.{LiteralsOfJmlFit};

/// Each literal in the JML of files that are read is a natural number below 2 to the 127th.
pub fn literals_of_jml_fit()
    ensures { LiteralsOfJmlFit }
{}
