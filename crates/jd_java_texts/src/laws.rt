ghost use Rattle.jd_java_texts.specs.Kept.{TextsAreKept};
ghost use Rattle.jd_java_texts.specs.Spelled.{TextsAreSpelled};
ghost use Rattle.jd_java_texts.specs.Tokens.{TokensAreKept};

/// The texts of the tree that a derivation stands for are those of its tokens.
pub fn texts_are_kept()
    ensures { TextsAreKept }
{}

/// The texts of an expression's tree, and of a statement's, are those of the tokens side by side.
pub fn tokens_are_kept()
    ensures { TokensAreKept }
{}

/// These are the words and signs of the file, and its numbers in decimal digits.
pub fn texts_are_spelled()
    ensures { TextsAreSpelled }
{}
