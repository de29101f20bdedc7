//! What the words of a case say.

ghost use Rattle.std.specs.Prelude.{◌≡◌, map, option_map};
ghost use Rattle.jd_case_heads.specs.Words.{behaviour_in, diverges_in};
ghost use Rattle.jd_row_makers.specs.Heads.{behaviour_view};
ghost use Rattle.jd_specifications.specs.WrittenCases as plain;
ghost use Rattle.jd_syntax.specs.SpecTrees.{clause_view};

use jd_row_makers::Behaviour;
use jd_syntax::{ClauseForm, SpecClause};

// What a clause says of how the method may end, if it does.
fn behaviour_of(c: &SpecClause) -> Option<Behaviour>
    ensures { option_map behaviour_view result ≡ behaviour_in (clause_view c.now) }
{
    if matches!(&c.form, ClauseForm::NormalBehavior) {
        Some(Behaviour::NormalOnly)
    } else if matches!(&c.form, ClauseForm::ExceptionalBehavior) {
        Some(Behaviour::ExceptionalOnly)
    } else {
        None
    }
}

/// How a method may end by the clauses of a case.
pub(crate) fn behaviour(cs: &[SpecClause]) -> Behaviour
    ensures { behaviour_view result ≡ plain.behaviour (map clause_view cs.now) }
{
    for c in cs {
        if let Some(b) = behaviour_of(c) {
            return b;
        }
    }
    Behaviour::AnyEnd
}

// What a clause says of whether the method need not end, if it does.
fn diverges_of(c: &SpecClause) -> Option<bool>
    ensures { result ≡ diverges_in (clause_view c.now) }
{
    match &c.form {
        ClauseForm::Diverges(b) => Some(*b),
        _ => None,
    }
}

/// Whether a method need not end by the clauses of a case.
pub(crate) fn diverges(cs: &[SpecClause]) -> bool
    ensures { result ≡ plain.diverges (map clause_view cs.now) }
{
    for c in cs {
        if let Some(b) = diverges_of(c) {
            return b;
        }
    }
    false
}
