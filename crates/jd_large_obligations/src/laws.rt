ghost use Rattle.jd_large_obligations.specs.Laws.{LargeClausesMakeLargeSequents};

/// Where a clause of a case is more than a sequent may have, the sequent of its obligation is past a limit.
pub fn large_clauses_make_large_sequents()
    ensures { LargeClausesMakeLargeSequents }
{}
