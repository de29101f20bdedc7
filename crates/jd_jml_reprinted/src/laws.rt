ghost use Rattle.jd_jml_reprinted.specs.Reprinted.{PrintedIsRead};

use jd_jml_leaves::leaves_tell_all;
use jd_jml_proper::faultless_is_proper;
use jd_jml_spelled::clauses_are_spelled;
use jd_jml_texts::texts_are_kept;
use jd_jml_trimmed::derivations_are_trimmed;

/// What tokens spell at a place is printed as a text that spells tokens which spell the same there.
pub fn printed_is_read()
    ensures { PrintedIsRead }
{
    derivations_are_trimmed();
    leaves_tell_all();
    texts_are_kept();
    faultless_is_proper();
    clauses_are_spelled();
}
