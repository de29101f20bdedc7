ghost use Rattle.jd_printed.specs.Laws.{PrintedIsRead};

/// The text of a term or a formula that the grammar spells is read as this term or formula, what was read is printed with the tokens
/// that were read, and no two terms, formulas or sequents have one text.
pub fn printed_is_read()
    ensures { PrintedIsRead }
{}
