ghost use Rattle.jd_jml_again.specs.Again.{ReadAgain};

use jd_jml_places::places_are_apart;
use jd_jml_proper::faultless_is_proper;
use jd_jml_texts::texts_are_kept;

/// The clauses that tokens spell are printed with the texts of these tokens, and tokens that stand elsewhere spell them too.
pub fn read_again()
    ensures { ReadAgain }
{
    texts_are_kept();
    faultless_is_proper();
    places_are_apart();
}
