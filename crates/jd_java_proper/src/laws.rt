ghost use Rattle.jd_java_proper.specs.Proper.{FaultlessIsProper};
ghost use Rattle.jd_java_proper.specs.Read.{ReadTextsAreKept};

use jd_java_texts::texts_are_kept;

/// In a derivation without fault what is cast to a class stands behind a name alone, constants are static, and fields are not.
pub fn faultless_is_proper()
    ensures { FaultlessIsProper }
{}

/// The tree of a file that tokens spell has the texts of their derivation.
pub fn read_texts_are_kept()
    ensures { ReadTextsAreKept }
{
    texts_are_kept();
    faultless_is_proper();
}
