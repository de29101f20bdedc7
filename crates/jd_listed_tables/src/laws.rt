ghost use Rattle.jd_listed_tables.specs.Laws.{FamiliesPlayNoPart};

/// The rows of a program's cases do not hang on the families of its methods.
pub fn families_play_no_part()
    ensures { FamiliesPlayNoPart }
{}
