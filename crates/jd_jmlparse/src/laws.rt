ghost use Rattle.jd_jmlparse.specs.OneAnswer.{OneAnswer};
ghost use Rattle.jd_jmlparse.specs.OneFilling.{OneFilling};

use jd_jml_grammar::one_derivation;

/// Tokens are the clauses of one list at most at a place, and what is read is not refused but for want of memory.
pub fn one_answer()
    ensures { OneAnswer }
{
    one_derivation();
}

/// A tree is filled in one way at most, is then not refused but for want of memory, and is refused for one reason.
pub fn one_filling()
    ensures { OneFilling }
{
    one_answer();
}
