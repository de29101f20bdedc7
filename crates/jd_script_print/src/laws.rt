ghost use Rattle.jd_script_print.specs.Laws.{PrintedIsRead};

/// The text of proofs is read as these proofs, so that no two files of proofs have one text; and proofs that were read are printed
/// with the tokens that were read.
pub fn printed_is_read()
    ensures { PrintedIsRead }
{}
