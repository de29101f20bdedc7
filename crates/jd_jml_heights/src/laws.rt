ghost use Rattle.jd_jml_heights.specs.ReadHeights.{ReadHeights};
ghost use Rattle.jd_jml_heights.specs.Told.{HeightsAreTold};

use jd_jml_proper::faultless_is_proper;

/// The height that a derivation tells is that of the highest expression of its clauses, and it tells a place of what is too high
/// exactly where one is higher than 200.
pub fn heights_are_told()
    ensures { HeightsAreTold }
{}

/// What is read at a place has no expression higher than 200, and what is too deep there has one.
pub fn read_heights()
    ensures { ReadHeights }
{
    faultless_is_proper();
    heights_are_told();
}
