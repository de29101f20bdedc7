//! Nodes for which nothing has to be taken off the stack: those that say that nothing stands behind an operand, and operands behind
//! which nothing stands, and those that stand for what their only part does.

ghost use Rattle.std.specs.Prelude.{◌≡◌, IfSome, true};
ghost use Rattle.jd_grammar.specs.Counted.{IsKept, IsQuiet};
ghost use Rattle.jd_jml_attributes.specs.Judging.{names_of as the_names};
ghost use Rattle.jd_jml_expressions.specs.declared.action.Action.TheVariants as actions;
ghost use Rattle.jd_jml_trees.specs.Short.{IsValueAt};
ghost use Rattle.jd_jml_trees.specs.declared.actions.Action.TheVariants as code;
ghost use Rattle.jd_jml_values.specs.Parts.{expression_of};
ghost use Rattle.jd_jml_values.specs.Values.{Expression};
ghost use Rattle.jd_jml_values.specs.Views.{value_view};
ghost use Rattle.jd_jml_values.specs.declared.values.Value.TheVariants.{NoSuffixes};
ghost use Rattle.jd_jml_values.specs.declared.values.Value.{Value as ValueOf};

use crate::actions::{Action, action_at};
use jd_jml_attributes::names_of;
use jd_jml_expressions::Action as expression;
use jd_jml_values::Value;

// Whether nodes of an action say that nothing stands behind an operand.
fn is_behind(action: Action) -> bool
    ensures { result ≡ true → action ≡ code.Expression actions.NoSuffixes }
{
    match action {
        Action::Expression(expression::NoSuffixes) => true,
        _ => false,
    }
}

// Whether nodes of an action are an operand with what stands behind it.
fn is_operand(action: Action) -> bool
    ensures { result ≡ true → action ≡ code.Expression actions.Operand }
{
    match action {
        Action::Expression(expression::Operand) => true,
        _ => false,
    }
}

// Whether nodes of an action stand for what their first part does.
fn is_first(action: Action) -> bool
    ensures { result ≡ true → action ≡ code.Expression actions.First }
{
    match action {
        Action::Expression(expression::First) => true,
        _ => false,
    }
}

// Whether it is an expression.
fn is_expression(value: &Value) -> bool
    ensures { result ≡ true → Expression (expression_of (value_view value.now)) ≡ value_view value.now }
{
    match value {
        Value::Expression(_) => true,
        _ => false,
    }
}

// Whether a node stands for what its first part does, with nothing in its second, as of a level of expressions without an operator of
// that level.
#[tactic(auto, using(crate::proofs::Standing::keeps))]
fn keeps_first(production: u16, first: &Value) -> bool
    ensures { result ≡ true → IsKept the_names IsValueAt NoSuffixes production 1 first.now }
{
    if names_of(production) != 2 {
        return false;
    }
    if !is_operand(action_at(production)) {
        return false;
    }
    is_expression(first)
}

// Whether a node stands for what its only part does.
#[tactic(auto, using(crate::proofs::Standing::only))]
fn keeps_only(production: u16) -> bool
    ensures { result ≡ true → (v : ValueOf) → IsKept the_names IsValueAt NoSuffixes production 0 v }
{
    if names_of(production) != 1 {
        return false;
    }
    is_first(action_at(production))
}

/// How many parts nodes of a production have, if they say that nothing stands behind an operand where their parts do.
#[tactic(auto, using(crate::proofs::Standing::quiet))]
pub(crate) fn quiet_parts(production: u16) -> Option<u8>
    ensures { IfSome result (λ n. IsQuiet the_names IsValueAt NoSuffixes production n) }
{
    if names_of(production) != 0 {
        return None;
    }
    if !is_behind(action_at(production)) {
        return None;
    }
    Some(0)
}

/// How many parts nodes of a production have behind the first, if they stand for this where the first does and nothing stands behind
/// it.
pub(crate) fn kept_parts(production: u16, first: &Value) -> Option<u8>
    ensures { IfSome result (λ n. IsKept the_names IsValueAt NoSuffixes production n first.now) }
{
    if keeps_first(production, first) {
        return Some(1);
    }
    if keeps_only(production) {
        return Some(0);
    }
    None
}
