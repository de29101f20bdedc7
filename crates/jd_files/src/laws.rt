ghost use Rattle.jd_files.specs.Laws.{OneFilesRefusal};

use jd_jclasses::one_class_refusal;
use jd_lex::one_answer as one_lexing;
use jd_source::one_source;

/// A law, without code: files are refused for one reason, and those of a program for none.
pub fn one_refusal()
    ensures { OneFilesRefusal }
{
    one_source();
    one_lexing();
    one_class_refusal();
}
