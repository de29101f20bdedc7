ghost use Rattle.jd_java_names.specs.Laws.{NamesAreIdentifiers};

use jd_names::names_are_known;

/// What files declare is called by identifiers, and so known by what is written for it.
pub fn names_are_identifiers()
    ensures { NamesAreIdentifiers }
{
    names_are_known();
}
