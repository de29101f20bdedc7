ghost use Rattle.jd_jml_texts.specs.Kept.{TextsAreKept};

/// The texts of the clauses that a derivation stands for are those of its tokens.
pub fn texts_are_kept()
    ensures { TextsAreKept }
{}
