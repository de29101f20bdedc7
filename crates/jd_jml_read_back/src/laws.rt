ghost use Rattle.jd_jml_read_back.specs.ReadBack.{PrintedIsReadBack};

use jd_jml_reprinted::printed_is_read;

/// The text that `print_spec` gives of clauses is read as the same clauses, but for where they stand, at each place whose grammar has them.
pub fn printed_is_read_back()
    ensures { PrintedIsReadBack }
{
    printed_is_read();
}
