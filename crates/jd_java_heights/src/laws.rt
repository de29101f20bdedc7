ghost use Rattle.jd_java_heights.specs.ReadHeights.{ReadHeights};
ghost use Rattle.jd_java_heights.specs.Told.{HeightsAreTold};

use jd_java_proper::faultless_is_proper;

/// The heights that a derivation tells are those of the highest expression and the highest statement of its tree, and it tells a place of
/// what is too high exactly where one is higher than 200.
pub fn heights_are_told()
    ensures { HeightsAreTold }
{}

/// A file that is read has no expression and no statement higher than 200, and one that is too deep has one.
pub fn read_heights()
    ensures { ReadHeights }
{
    faultless_is_proper();
    heights_are_told();
}
