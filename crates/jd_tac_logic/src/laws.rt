ghost use Rattle.jd_taclets.specs.Taclets.{AllMean, AllFinds};
ghost use Rattle.jd_tac_logic.specs.Logic.{logic_rows};

/// A law, without code: each row of logic is sound.
pub fn logic_rows_mean()
    ensures { AllMean logic_rows }
{}

/// A law, without code: what the rows of logic find and assume are forms that matching decides.
pub fn logic_rows_are_found()
    ensures { AllFinds logic_rows }
{}
