ghost use Rattle.jd_names.specs.Laws.{NamesAreKnown};

use jd_jclasses::one_method;

/// Law, without code: each class, field and method of a program's tables is the one that is named by what is written for it, and
/// so is each of a method's variables and each name that tells its sort.
pub fn names_are_known()
    ensures { NamesAreKnown }
{
    one_method();
}
