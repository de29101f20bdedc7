ghost use Rattle.std.specs.Prelude.{◌≡◌, ◌∷◌, [], ℕ, true};
ghost use Rattle.jd_grammar.specs.Grammars.{Forest, IsForest, yield};
ghost use Rattle.jd_grammar.specs.declared.table.Symbol.TheVariants.{Name};
ghost use Rattle.jd_jml_grammar.specs.Jml.{is_place};
ghost use Rattle.jd_jml_grammar.specs.Productions.{jml_productions};

use jd_grammar::{one_order, one_tree};

/// Tokens have one derivation at most as the JML of a place.
pub fn one_derivation()
    ensures { (place : ℕ) (f h : Forest) → is_place place ≡ true → IsForest jml_productions f (Name place ∷ []) [] → IsForest jml_productions h (Name place ∷ []) [] → yield f ≡ yield h → f ≡ h }
{
    one_order();
    one_tree();
}
