ghost use Rattle.jd_written.specs.Laws.{IntegersAreWords, TokensAreReadBack, TokensAreWritten};

/// The tokens of a text that was written are those that were written, and an expression is read from its text. So no two lists of
/// tokens have one text.
pub fn read_back()
    ensures { TokensAreReadBack }
{}

/// What is written token by token is the text of the tokens, however they are parted.
pub fn written_in_parts()
    ensures { TokensAreWritten }
{}

/// The decimal digits of an integer are a word, and no two integers have the same.
pub fn integers_are_words()
    ensures { IntegersAreWords }
{}
