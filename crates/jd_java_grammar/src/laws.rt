ghost use Rattle.std.specs.Prelude.{◌≡◌, ◌∷◌, []};
ghost use Rattle.jd_grammar.specs.Grammars.{Forest, IsForest, yield};
ghost use Rattle.jd_grammar.specs.declared.table.Symbol.TheVariants.{Name};
ghost use Rattle.jd_java_grammar.specs.Productions.{java_productions};
ghost use Rattle.jd_java_grammar.specs.declared.names.TheConstants.{COMPILATION_UNIT};

use jd_grammar::{one_order, one_tree};

/// Tokens have one derivation as a file at most.
pub fn one_derivation()
    ensures { (f h : Forest) → IsForest java_productions f (Name COMPILATION_UNIT ∷ []) [] → IsForest java_productions h (Name COMPILATION_UNIT ∷ []) [] → yield f ≡ yield h → f ≡ h }
{
    one_order();
    one_tree();
}
