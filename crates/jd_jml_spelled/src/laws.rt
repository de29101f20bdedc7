ghost use Rattle.jd_jml_spelled.specs.Clauses.{ClausesAreSpelled};
ghost use Rattle.jd_jml_spelled.specs.Comments.{CommentsAreSpelled};

/// Texts of tokens with white space before each, in a comment that is JML, spell these tokens.
pub fn comments_are_spelled()
    ensures { CommentsAreSpelled }
{}

/// The text of clauses spells the tokens that it is made of.
pub fn clauses_are_spelled()
    ensures { ClausesAreSpelled }
{}
