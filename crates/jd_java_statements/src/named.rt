//! Statements and starts of loops that begin with a name.

ghost use Rattle.std.specs.Prelude.{◌≡◌, ℕ, List, [], ◌∷◌, map, option_map};
ghost use Rattle.jd_java_tokens.specs.Heads as heads;
ghost use Rattle.jd_java_tokens.specs.Lexemes.{lexeme_view};
ghost use Rattle.jd_syntax.specs.JavaTrees.{JavaExpr, java_view};
ghost use Rattle.jd_syntax.specs.JavaTrees as java;
ghost use Rattle.jd_java_expressions.specs.Applying.{all_applied, named};
ghost use Rattle.jd_java_expressions.specs.Meaning.{effect_of_name};
ghost use Rattle.jd_java_values.specs.Values as values;
ghost use Rattle.jd_java_values.specs.Views.{Gives, backwards, in_order, parts_view, suffix_view, value_view};
ghost use Rattle.jd_java_statements.specs.declared.action.Action.{Action};
ghost use Rattle.jd_java_statements.specs.Meaning as plain_meaning;
ghost use Rattle.jd_java_statements.specs.Meaning.{meaning};

use crate::forms::{given, labelled, local};
use crate::loops::{evaluated, text_at};
use crate::variables::{declared, ordered_variables};
use jd_base::{NoMemory, both};
use jd_grammar::NodeParts;
use jd_java_expressions::applied_name;
use jd_java_tokens::{Lexeme, place_of, text_of};
use jd_java_values::{Suffix, Value, class_at, discard, expressions, taken, with};
use jd_syntax::{Expr, Stmt, StmtForm};
use std::alloc::Global;

// Arguments, what stands behind those, and further expressions.
fn behind_name(alloc: Global, value: Value) -> (Option<Vec<Expr>>, Vec<Suffix>, Vec<Expr>)
    ensures effect { (at : ℕ) → (w : List ℕ) → effect_of_name at w (value_view value) ≡ all_applied (named at w (option_map (in_order java_view) result.0)) (backwards suffix_view result.1) }
    ensures further { backwards java_view result.2 ≡ plain_meaning.further (value_view value) }
    ensures replaced { (es : List JavaExpr) → plain_meaning.with_effects (value_view value) es ≡ values.BehindName (option_map (in_order java_view) result.0) (backwards suffix_view result.1) es }
{
    match value {
        Value::BehindName(arguments, suffixes, further) => (arguments, suffixes, further),
        other => {
            discard(other);
            (None, Vec::new(alloc), Vec::new(alloc))
        }
    }
}

// What is evaluated first, and what further.
fn effects(
    alloc: Global,
    tokens: &[Lexeme<'_>],
    behind: Value,
) -> (Result<Expr, NoMemory>, Vec<Expr>)
    ensures first { Gives java_view result.0 (effect_of_name (heads.place_of 0 (map lexeme_view tokens.now)) (heads.text_of (map lexeme_view tokens.now)) (value_view behind)) }
    ensures further { backwards java_view result.1 ≡ plain_meaning.further (value_view behind) }
{
    let (arguments, suffixes, further) = behind_name(alloc, behind);
    let at = place_of(0, tokens);
    let effect = applied_name(alloc, at, text_of(tokens), arguments, suffixes);
    (effect, further)
}

fn evaluating(
    alloc: Global,
    at: u32,
    effects: (Result<Expr, NoMemory>, Vec<Expr>),
) -> Result<Value, NoMemory>
    ensures { (e : JavaExpr) → Gives java_view effects.0 e → Gives value_view result (values.Statement (java.Evaluate at e)) }
{
    let (effect, further) = effects;
    discard(further);
    let form = StmtForm::Evaluate(effect?);
    given(alloc, Stmt { at, form })
}

/// A statement that begins with a name: labelled, of variables of a class, or an expression.
pub fn named_statement(
    alloc: Global,
    tokens: &[Lexeme<'_>],
    behind: Value,
) -> Result<Value, NoMemory>
    ensures { Gives value_view result (values.Statement (plain_meaning.named_statement (heads.place_of 0 (map lexeme_view tokens.now)) (heads.text_of (map lexeme_view tokens.now)) (value_view behind))) }
{
    let at = place_of(0, tokens);
    match behind {
        Value::Statement(body) => labelled(alloc, at, text_at(alloc, tokens), body),
        Value::Variables(variables) => local(
            alloc,
            at,
            class_at(alloc, tokens),
            Ok(ordered_variables(variables)),
        ),
        other => evaluating(alloc, at, effects(alloc, tokens, other)),
    }
}

#[tactic(auto, using(jd_lists::proofs::Backwards::one_more))]
fn started(effects: (Result<Expr, NoMemory>, Vec<Expr>)) -> Result<Value, NoMemory>
    ensures { (e : JavaExpr) → Gives java_view effects.0 e → Gives value_view result (values.LoopStart (java.Evaluated (e ∷ backwards java_view effects.1))) }
{
    let (effect, further) = effects;
    let (effect, further) = both(effect, Ok(further))?;
    let expressions = with(further, effect)?;
    Ok(Value::LoopStart(evaluated(expressions)))
}

/// The start of a `for` that begins with a name: variables of a class, or expressions.
pub fn named_start(alloc: Global, tokens: &[Lexeme<'_>], behind: Value) -> Result<Value, NoMemory>
    ensures { Gives value_view result (values.LoopStart (plain_meaning.named_start (heads.place_of 0 (map lexeme_view tokens.now)) (heads.text_of (map lexeme_view tokens.now)) (value_view behind))) }
{
    match behind {
        Value::Variables(variables) => declared(
            class_at(alloc, tokens),
            Ok(ordered_variables(variables)),
        ),
        other => started(effects(alloc, tokens, other)),
    }
}

fn with_effects(alloc: Global, behind: Value, others: Vec<Expr>) -> Value
    ensures { value_view result ≡ plain_meaning.with_effects (value_view behind) (backwards java_view others) }
{
    let (arguments, suffixes, before) = behind_name(alloc, behind);
    discard(before);
    Value::BehindName(arguments, suffixes, others)
}

/// What makes a name a statement, and further expressions.
pub fn name_effects(alloc: Global, parts: &mut NodeParts<Value>) -> Result<Value, NoMemory>
    ensures { Gives value_view result (meaning Action.NameEffects [] (parts_view parts.old)) }
{
    let others = expressions(alloc, taken(&mut parts.second));
    Ok(with_effects(alloc, taken(&mut parts.first), others))
}
