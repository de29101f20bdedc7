ghost use Rattle.jd_jml_leaves.specs.Leaves.{LeavesTellAll};

use jd_jml_places::places_are_apart;

/// A derivation is printed with the texts of its leaves, and stands for the same over tokens that say the same there.
pub fn leaves_tell_all()
    ensures { LeavesTellAll }
{
    places_are_apart();
}
