ghost use Rattle.jd_case_rows.specs.Laws.{RowsStand};

/// The row of a case, in the names of the body that runs, stands for the case (The KeY Book, 8.2; JML Reference Manual, 9).
pub fn rows_stand()
    ensures { RowsStand }
{}
