//! The grammar of terms, location sets, formulas and code: the text of each tree. Laws alone.
#![tactic(auto)]

ghost use Rattle.jd_tgrammar.specs.Examples.{Examples};

/// The texts of some trees, worked out by hand: one for each form.
pub fn examples()
    ensures { Examples }
{}
