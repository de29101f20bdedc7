ghost use Rattle.jd_local_texts.specs.Laws.{TextsOfLocalsAreApart};

/// Parameters and locals that are called by words have words for texts, no literal's and no temporary's; and two texts that are the same
/// are of one name and one number.
pub fn texts_of_locals_are_apart()
    ensures { TextsOfLocalsAreApart }
{}
