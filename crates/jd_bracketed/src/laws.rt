ghost use Rattle.std.specs.Prelude.{◌≡◌, ℕ, List, false};
ghost use Rattle.jd_bracketed.specs.Tokens.{Placed, tokens_of};
ghost use Rattle.jd_bracketed.specs.Texts.{Spells};
ghost use Rattle.jd_bracketed.specs.Answers.{OneAnswer};

/// The tokens of a text are those that it spells, and no others.
pub fn one_lexing()
    ensures spelled { (bytes : List ℕ) → Spells (tokens_of bytes) false 0 bytes }
    ensures only { (tokens : List Placed) (bytes : List ℕ) → Spells tokens false 0 bytes → tokens_of bytes ≡ tokens }
{}

/// A text is one bracketed expression, or there is one reason why it is none.
pub fn one_answer()
    ensures { OneAnswer }
{}
