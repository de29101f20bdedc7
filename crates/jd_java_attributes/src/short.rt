//! Nodes for which nothing has to be taken off the stack but parts that are nothing, as of levels of expressions without an operator
//! of theirs.

ghost use Rattle.std.specs.Prelude.{◌≡◌, IfSome};
ghost use Rattle.jd_grammar.specs.Counted.{IsKept, IsQuiet};
ghost use Rattle.jd_java_attributes.specs.Folding.{IsFormAt, IsToldAt};
ghost use Rattle.jd_java_attributes.specs.Judging.{names_of as the_names};
ghost use Rattle.jd_java_attributes.specs.Short.{IsLevel};
ghost use Rattle.jd_java_attributes.specs.declared.form.TheConstants.{EMPTY as NOTHING};
ghost use Rattle.jd_java_attributes.specs.declared.heading.Told.TheVariants as tells;

use crate::form::Form;
use crate::heading::tells_parts;
use crate::rows::{Row, Rule, row};
use crate::rules::{is_blank, is_settled};

/// How many parts nodes of a production have, if they have the form of nothing where their parts do.
pub(crate) fn quiet_form_parts(production: u16) -> Option<u8>
    ensures { IfSome result (λ n. IsQuiet the_names IsFormAt NOTHING production n) }
{
    let row = row(production);
    if !is_blank(row) {
        return None;
    }
    Some(row.1)
}

// How many parts nodes of this row have behind the first, if they have its form where it is alone, as of a level of expressions.
#[tactic(auto, using(crate::proofs::Levels::level, crate::proofs::Levels::list, crate::proofs::Levels::wide_level, crate::proofs::Levels::only_level, crate::proofs::Levels::only_list))]
fn level_parts(row: Row) -> Option<u8>
    ensures { IfSome result (λ n. IsLevel row n) }
{
    match row {
        (0, 1, Rule::Expression) => Some(0),
        (0, 1, Rule::Parts) => Some(0),
        (0, 2, Rule::Expression) => Some(1),
        (0, 2, Rule::Parts) => Some(1),
        (0, 3, Rule::Expression) => Some(2),
        _ => None,
    }
}

/// How many parts nodes of a production have behind the first, if they have this form where the first has it and the others that of
/// nothing.
#[tactic(auto, using(crate::proofs::Levels::kept_form))]
pub(crate) fn kept_form_parts(production: u16, first: Form) -> Option<u8>
    ensures { IfSome result (λ n. IsKept the_names IsFormAt NOTHING production n first) }
{
    let Some(parts) = level_parts(row(production)) else {
        return None;
    };
    if !is_settled(first) {
        return None;
    }
    Some(parts)
}

/// How many parts nodes of a production have, if they tell nothing where their parts do not.
#[tactic(auto, using(crate::proofs::Levels::quiet_telling))]
pub(crate) fn quiet_told_parts(production: u16) -> Option<u8>
    ensures { IfSome result (λ n. IsQuiet the_names IsToldAt tells.Nothing production n) }
{
    let row = row(production);
    if !tells_parts(row.2) {
        return None;
    }
    Some(row.1)
}
