ghost use Rattle.std.specs.Prelude.{◌≡◌, ℕ, List};
ghost use Rattle.jd_lex.specs.Parts.{Token, Fault};
ghost use Rattle.jd_lex.specs.Lexing.{Spells, HasFault, IsFirstFault};
ghost use Rattle.jd_lex.specs.Places.{AreSlices, InOrder};

/// A text has one list of tokens, or one first fault, and not both.
pub fn one_answer()
    ensures one_list { (bytes : List ℕ) (xs ys : List Token) → Spells bytes xs → Spells bytes ys → xs ≡ ys }
    ensures no_fault { (bytes : List ℕ) (xs : List Token) (fault : Fault) → Spells bytes xs → HasFault bytes fault → ⊥ }
    ensures one_first { (bytes : List ℕ) (fault other : Fault) → IsFirstFault bytes fault → IsFirstFault bytes other → fault ≡ other }
{}

/// Each token's bytes are those of the text between its offsets, a number's the decimal of its value; the
/// tokens stand one behind another.
pub fn tokens_are_slices()
    ensures slices { (bytes : List ℕ) (tokens : List Token) → Spells bytes tokens → AreSlices bytes tokens }
    ensures in_order { (bytes : List ℕ) (tokens : List Token) → Spells bytes tokens → InOrder 0 tokens }
{}
