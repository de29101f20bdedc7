ghost use Rattle.jd_refusals.specs.Laws.{OneTokenRefusal};

use jd_declaration_laws::declarations_are_one;

/// A law, without code: files whose classes stand have one first refused token, or none, and it is of one of them.
pub fn one_refusal()
    ensures { OneTokenRefusal }
{
    declarations_are_one();
}
