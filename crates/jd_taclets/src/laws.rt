ghost use Rattle.jd_taclets.specs.Taclets.{AllMean, AllFinds};
ghost use Rattle.jd_taclets.specs.WorkedRows.{worked_rows, read_rows};

/// A law, without code: worked rows of integers, heaps, classes and code are sound.
pub fn worked_rows_mean()
    ensures { AllMean worked_rows }
{}

/// A law, without code: what the worked rows find and assume are forms that matching decides.
pub fn worked_rows_are_found()
    ensures { AllFinds worked_rows × AllFinds read_rows }
{}
