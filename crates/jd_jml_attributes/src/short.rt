//! Nodes for which nothing has to be taken off the stack but parts that are nothing, as of levels of expressions without an operator
//! of theirs.

ghost use Rattle.std.specs.Prelude.{◌≡◌, IfSome, List, true};
ghost use Rattle.jd_grammar.specs.Counted.{IsKept, IsQuiet};
ghost use Rattle.jd_jml_tokens.specs.Lexemes.{PlainLexeme};
ghost use Rattle.jd_jml_attributes.specs.Forms.{form_view};
ghost use Rattle.jd_jml_attributes.specs.Judging.{names_of as the_names};
ghost use Rattle.jd_jml_attributes.specs.Rules.{high_at};
ghost use Rattle.jd_jml_attributes.specs.Short.{IsFormAt, IsLevel, IsSettled, no_form};

use crate::form::Form;
use crate::rows::{Rule, row};

// Whether the place of what is too high is known, if something is.
#[tactic(auto, using(crate::proofs::Settled::already_marked, crate::proofs::Settled::not_too_high))]
fn is_marked(height: u8, high: Option<u32>) -> bool
    ensures { result ≡ true → (ts : List PlainLexeme) → high_at ts height high ≡ high }
{
    match high {
        Some(_) => true,
        None => height <= 200,
    }
}

// Whether an expression of this form alone has this form.
fn is_settled(form: &Form<'_>) -> bool
    ensures { result ≡ true → IsSettled (form_view form.now) }
{
    if form.adds != 0 {
        return false;
    }
    if form.height > 201 {
        return false;
    }
    match form.cast {
        Some(_) => false,
        None => is_marked(form.height, form.high),
    }
}

// Whether nodes of this rule have the form of their first part where it is alone.
#[tactic(auto, using(crate::proofs::Settled::level, crate::proofs::Settled::list))]
fn is_level(rule: Rule) -> bool
    ensures { result ≡ true → IsLevel rule }
{
    match rule {
        Rule::Parts => true,
        Rule::Expression => true,
        _ => false,
    }
}

/// How many parts nodes of a production have, if they have the form of nothing where their parts do.
#[tactic(auto, using(crate::proofs::Levels::quiet))]
pub(crate) fn quiet_parts(production: u16) -> Option<u8>
    ensures { IfSome result (λ n. IsQuiet the_names IsFormAt no_form production n) }
{
    let row = row(production);
    if !is_level(row.1) {
        return None;
    }
    Some(row.0)
}

/// How many parts nodes of a production have behind the first, if they have this form where the first has it and the others that of
/// nothing.
#[tactic(auto, using(crate::proofs::Levels::kept))]
pub(crate) fn kept_parts(production: u16, first: &Form<'_>) -> Option<u8>
    ensures { IfSome result (λ n. IsKept the_names IsFormAt no_form production n first.now) }
{
    let row = row(production);
    if !is_level(row.1) {
        return None;
    }
    if !is_settled(first) {
        return None;
    }
    if row.0 == 0 {
        return None;
    }
    Some(row.0 - 1)
}
