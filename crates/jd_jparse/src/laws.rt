ghost use Rattle.jd_jparse.specs.OneAnswer.{OneAnswer};

use jd_java_grammar::one_derivation;

/// Tokens are the file of one tree at most, and what is read is not refused but for want of memory.
pub fn one_answer()
    ensures { OneAnswer }
{
    one_derivation();
}
