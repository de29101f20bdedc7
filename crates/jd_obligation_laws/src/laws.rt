ghost use Rattle.jd_obligation_laws.specs.Laws.{ObligationsAreMadeOfRows};

use jd_field_sorts::fields_have_sorts;
use jd_jclasses::one_method;

/// The obligation of each case is made of the row that tables have for it, where these are made of the program's cases and no token of its
/// bodies and JML is refused (The KeY Book, 8.3).
pub fn obligations_are_made_of_rows()
    ensures { ObligationsAreMadeOfRows }
{
    fields_have_sorts();
    one_method();
}
