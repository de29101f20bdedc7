ghost use Rattle.jd_taclets.specs.Taclets.{AllMean, AllFinds};
ghost use Rattle.jd_tac_int.specs.Integers.{integer_rows};

/// A law, without code: each row of integers is sound.
pub fn integer_rows_mean()
    ensures { AllMean integer_rows }
{}

/// A law, without code: what the rows of integers find and assume are forms that matching decides.
pub fn integer_rows_are_found()
    ensures { AllFinds integer_rows }
{}
