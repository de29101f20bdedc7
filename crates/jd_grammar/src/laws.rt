ghost use Rattle.std.specs.Prelude.{◌≡◌, ℕ, List, true};
ghost use Rattle.jd_grammar.specs.Grammars.{Forest, IsForest, Production, Spells, preorder};
ghost use Rattle.jd_grammar.specs.Tables.{PlainTable};
ghost use Rattle.jd_grammar.specs.Tests.{IsLl1, is_start};
ghost use Rattle.jd_grammar.specs.declared.table.Symbol.{Symbol};

/// Tokens have one preorder at most.
pub fn one_order()
    ensures { (t : PlainTable) (start : ℕ) (tokens a b : List ℕ) → IsLl1 t → is_start t start ≡ true → Spells t.productions start tokens a → Spells t.productions start tokens b → a ≡ b }
{}

/// A preorder has one tree at most, in any grammar.
pub fn one_tree()
    ensures { (g : List Production) (f h : Forest) (symbols : List Symbol) (after before : List ℕ) → IsForest g f symbols after → IsForest g h symbols before → preorder f ≡ preorder h → f ≡ h }
{}
