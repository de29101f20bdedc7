//! Nodes for which nothing has to be taken off the stack: those that say that nothing stands behind an operand, and operands behind
//! which nothing stands, and those that stand for what their only part does.

ghost use Rattle.std.specs.Prelude.{◌≡◌, IfSome, List, [], true};
ghost use Rattle.jd_grammar.specs.Counted.{IsKept, IsQuiet};
ghost use Rattle.jd_grammar.specs.Nodes.{all_of};
ghost use Rattle.jd_java_attributes.specs.Judging.{names_of as the_names};
ghost use Rattle.jd_java_expressions.specs.declared.action.Action.TheVariants as actions;
ghost use Rattle.jd_java_tokens.specs.Contents.{PlainLexeme};
ghost use Rattle.jd_java_trees.specs.Meaning.{meaning_by};
ghost use Rattle.jd_java_trees.specs.Short.{IsBlank, IsValueAt};
ghost use Rattle.jd_java_trees.specs.declared.actions.Action.TheVariants as code;
ghost use Rattle.jd_java_values.specs.Parts.{expression_of};
ghost use Rattle.jd_java_values.specs.Values.{Expression, Nothing, Suffixes};
ghost use Rattle.jd_java_values.specs.Views.{value_view};
ghost use Rattle.jd_java_values.specs.declared.values.Value.{Value as ValueOf};
ghost use Rattle.jd_java_values.specs.declared.values.Value.TheVariants.{NoSuffixes};

use crate::actions::{Action, action_at};
use jd_java_attributes::names_of;
use jd_java_expressions::Action as expression;
use jd_java_values::Value;

// Whether nodes of an action are what stands behind an operand, where they have no parts.
fn is_behind(action: Action) -> bool
    ensures { result ≡ true → (ts : List PlainLexeme) → meaning_by action ts (all_of Nothing) ≡ Suffixes [] }
{
    match action {
        Action::Expression(expression::Suffixes) => true,
        _ => false,
    }
}

/// Whether nodes of a production say that nothing stands behind an operand.
#[tactic(auto, using(crate::proofs::Standing::blank))]
pub(crate) fn is_blank(production: u16) -> bool
    ensures { result ≡ true → IsBlank production }
{
    if names_of(production) != 0 {
        return false;
    }
    is_behind(action_at(production))
}

// Whether it is an expression.
fn is_expression(value: &Value) -> bool
    ensures { result ≡ true → Expression (expression_of (value_view value.now)) ≡ value_view value.now }
{
    match value {
        Value::Expression(_) => true,
        _ => false,
    }
}

// Whether nodes of an action are an operand with what stands behind it.
fn is_operand(action: Action) -> bool
    ensures { result ≡ true → action ≡ code.Expression actions.Operand }
{
    match action {
        Action::Expression(expression::Operand) => true,
        _ => false,
    }
}

// Whether nodes of an action stand for what their first part does.
fn is_first(action: Action) -> bool
    ensures { result ≡ true → action ≡ code.Expression actions.First }
{
    match action {
        Action::Expression(expression::First) => true,
        _ => false,
    }
}

// Whether a node stands for what its first part does, with nothing in its second, as of a level of expressions without an operator of
// that level.
#[tactic(auto, using(crate::proofs::Standing::keeps))]
fn keeps_first(production: u16, first: &Value) -> bool
    ensures { result ≡ true → IsKept the_names IsValueAt NoSuffixes production 1 first.now }
{
    if names_of(production) != 2 {
        return false;
    }
    if !is_operand(action_at(production)) {
        return false;
    }
    is_expression(first)
}

// Whether a node stands for what its only part does.
#[tactic(auto, using(crate::proofs::Standing::only))]
fn keeps_only(production: u16) -> bool
    ensures { result ≡ true → (v : ValueOf) → IsKept the_names IsValueAt NoSuffixes production 0 v }
{
    if names_of(production) != 1 {
        return false;
    }
    is_first(action_at(production))
}

/// How many parts nodes of a production have, if they say that nothing stands behind an operand where their parts do.
#[tactic(auto, using(crate::proofs::Standing::quiet))]
pub(crate) fn quiet_parts(production: u16) -> Option<u8>
    ensures { IfSome result (λ n. IsQuiet the_names IsValueAt NoSuffixes production n) }
{
    if !is_blank(production) {
        return None;
    }
    Some(0)
}

/// How many parts nodes of a production have behind the first, if they stand for this where the first does and nothing stands behind
/// it.
pub(crate) fn kept_parts(production: u16, first: &Value) -> Option<u8>
    ensures { IfSome result (λ n. IsKept the_names IsValueAt NoSuffixes production n first.now) }
{
    if keeps_first(production, first) {
        return Some(1);
    }
    if keeps_only(production) {
        return Some(0);
    }
    None
}
