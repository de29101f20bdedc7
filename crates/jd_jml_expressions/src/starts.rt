//! What begins behind `(`.

ghost use Rattle.std.specs.Prelude.{◌≡◌, [], IfOk, List, map, option_map};
ghost use Rattle.jd_jml_tokens.specs.Lexemes.{lexeme_view};
ghost use Rattle.jd_syntax.specs.JavaTypes.{identifier_view, written_view};
ghost use Rattle.jd_syntax.specs.SpecTrees.{PlainSpec, spec_type_view};
ghost use Rattle.jd_jml_values.specs.Parts as part;
ghost use Rattle.jd_jml_values.specs.Parts.{suffixes_of};
ghost use Rattle.jd_jml_values.specs.Values as values;
ghost use Rattle.jd_jml_values.specs.Values.{PlainStart, PlainSuffix};
ghost use Rattle.jd_jml_values.specs.Views.{Gives, backwards, boxed_view, parts_view, start_view, suffix_view, value_view};
ghost use Rattle.jd_jml_expressions.specs.declared.action.Action.TheVariants as actions;
ghost use Rattle.jd_jml_expressions.specs.Applying as applying;
ghost use Rattle.jd_jml_expressions.specs.Meaning as plain;
ghost use Rattle.jd_jml_expressions.specs.Meaning.{meaning};

use jd_base::{NoMemory, both};
use jd_grammar::NodeParts;
use jd_jml_tokens::Lexeme;
use jd_jml_values::{
    Start, Suffix, Value, appended, bound_type, boxed, discard, expression, name, some_expression,
    suffixes, taken, type_at,
};
use jd_syntax::{Identifier, JavaType, Quantifier, SpecExpr, SpecForm, SpecType, WrittenType};
use std::alloc::Global;

// A start, if it has been made, as what a node stands for.
fn given(alloc: Global, start: Result<Start, NoMemory>) -> Result<Value, NoMemory>
    ensures { (x : PlainStart) → Gives start_view start x → Gives value_view result (values.Started x []) }
{
    Ok(Value::Started(start?, Vec::new(alloc)))
}

// The class that a name in parentheses is.
fn class_in(alloc: Global, e: Box<SpecExpr>) -> WrittenType
    ensures { written_view result ≡ applying.class_type (boxed_view e) }
{
    let SpecExpr { at, form } = Box::into_inner(e);
    match form {
        SpecForm::Name(name) => WrittenType {
            at,
            written: JavaType::Named(name),
        },
        other => {
            discard(other);
            WrittenType {
                at,
                written: JavaType::Named(Vec::new(alloc)),
            }
        }
    }
}

// What stands behind an operand, of a value that is no expression.
fn behind_of(alloc: Global, value: Value) -> Vec<Suffix>
    ensures { backwards suffix_view result ≡ suffixes_of (value_view value) }
{
    let mut value = value;
    suffixes(alloc, &mut value)
}

// An expression in parentheses, or a class and what is cast to it.
fn parenthesis_of(alloc: Global, e: Box<SpecExpr>, behind: Value) -> Value
    ensures { value_view result ≡ plain.parenthesis (boxed_view e) (value_view behind) }
{
    match behind {
        Value::Expression(operand) => Value::Started(
            Start::Cast(class_in(alloc, e), operand),
            Vec::new(alloc),
        ),
        other => Value::Started(Start::Inside(e), behind_of(alloc, other)),
    }
}

/// Behind `(`: an expression in parentheses, or a class and what is cast to it.
pub fn parenthesis(alloc: Global, parts: &mut NodeParts<Value>) -> Result<Value, NoMemory>
    ensures { Gives value_view result (meaning actions.Parenthesis [] (parts_view parts.old)) }
{
    let e = expression(alloc, &mut parts.first)?;
    Ok(parenthesis_of(alloc, e, taken(&mut parts.second)))
}

// An operand that is cast to a type, if it has been made.
fn cast(ty: WrittenType, e: Result<Box<SpecExpr>, NoMemory>) -> Result<Start, NoMemory>
    ensures { (x : PlainSpec) → Gives boxed_view e x → Gives start_view result (values.Cast (written_view ty) x) }
{
    let (ty, e) = both(Ok(ty), e)?;
    Ok(Start::Cast(ty, e))
}

// The same as what a node stands for.
fn cast_to(
    alloc: Global,
    ty: WrittenType,
    e: Result<Box<SpecExpr>, NoMemory>,
) -> Result<Value, NoMemory>
    ensures { (x : PlainSpec) → Gives boxed_view e x → Gives value_view result (values.Started (values.Cast (written_view ty) x) []) }
{
    given(alloc, cast(ty, e))
}

// The expression that a value is.
fn expression_of(alloc: Global, value: Value) -> Result<Box<SpecExpr>, NoMemory>
    ensures { Gives boxed_view result (part.expression_of (value_view value)) }
{
    let mut value = value;
    expression(alloc, &mut value)
}

// Behind `(` and `int`: what is cast to `int` or `int[]`.
fn int_cast_of(alloc: Global, tokens: &[Lexeme<'_>], value: Value) -> Result<Value, NoMemory>
    ensures { Gives value_view result (plain.int_cast (map lexeme_view tokens.now) (value_view value)) }
{
    match value {
        Value::ArrayOperand(e) => cast_to(alloc, type_at(tokens, JavaType::IntArray), Ok(e)),
        other => cast_to(
            alloc,
            type_at(tokens, JavaType::Int),
            expression_of(alloc, other),
        ),
    }
}

/// Behind `(`: `int` or `int[]`, and what is cast to it.
pub fn int_cast(
    alloc: Global,
    tokens: &[Lexeme<'_>],
    parts: &mut NodeParts<Value>,
) -> Result<Value, NoMemory>
    ensures { Gives value_view result (meaning actions.IntCast (map lexeme_view tokens.now) (parts_view parts.old)) }
{
    int_cast_of(alloc, tokens, taken(&mut parts.first))
}

/// Behind `(`: `boolean`, and what is cast to it.
pub fn boolean_cast(
    alloc: Global,
    tokens: &[Lexeme<'_>],
    parts: &mut NodeParts<Value>,
) -> Result<Value, NoMemory>
    ensures { Gives value_view result (meaning actions.BooleanCast (map lexeme_view tokens.now) (parts_view parts.old)) }
{
    let e = expression(alloc, &mut parts.first);
    cast_to(alloc, type_at(tokens, JavaType::Boolean), e)
}

// What begins so, with more behind it.
#[tactic(auto, using(jd_lists::proofs::Backwards::reversed_append))]
fn followed_by(value: Value, more: Vec<Suffix>) -> Result<Value, NoMemory>
    ensures { Gives value_view result (plain.followed (value_view value) (backwards suffix_view more)) }
{
    match value {
        Value::Started(start, behind) => continued(start, appended(more, behind)),
        other => {
            discard(other);
            discard(more);
            Ok(Value::Nothing)
        }
    }
}

// A start, with what stands behind it, if that has been made.
fn continued(start: Start, behind: Result<Vec<Suffix>, NoMemory>) -> Result<Value, NoMemory>
    ensures { (x : List PlainSuffix) → Gives (backwards suffix_view) behind x → Gives value_view result (values.Started (start_view start) x) }
{
    let (start, behind) = both(Ok(start), behind)?;
    Ok(Value::Started(start, behind))
}

/// Behind `(`: what binds a variable, and what stands behind that.
pub fn followed(alloc: Global, parts: &mut NodeParts<Value>) -> Result<Value, NoMemory>
    ensures { Gives value_view result (meaning actions.Followed [] (parts_view parts.old)) }
{
    let more = suffixes(alloc, &mut parts.second);
    followed_by(taken(&mut parts.first), more)
}

// What binds a variable over all values, or over those of a range where two expressions stand.
fn bound(
    quantifier: Quantifier,
    variable: (SpecType, Identifier),
    first: Box<SpecExpr>,
    second: Option<Box<SpecExpr>>,
) -> Start
    ensures { start_view result ≡ applying.quantified quantifier (spec_type_view variable.0) (identifier_view variable.1) (boxed_view first) (option_map boxed_view second) }
{
    let (ty, name) = variable;
    match second {
        None => Start::Quantified(quantifier, ty, name, first),
        Some(e) => Start::QuantifiedIn(quantifier, ty, name, first, e),
    }
}

/// `\forall` or `\exists`
pub fn quantified(
    alloc: Global,
    quantifier: Quantifier,
    parts: &mut NodeParts<Value>,
) -> Result<Value, NoMemory>
    ensures { Gives value_view result (meaning (actions.Quantified quantifier) [] (parts_view parts.old)) }
{
    let first = expression(alloc, &mut parts.third)?;
    let ty = bound_type(&mut parts.first);
    let name = name(alloc, &mut parts.second);
    let second = some_expression(&mut parts.fourth);
    given(alloc, Ok(bound(quantifier, (ty, name), first, second)))
}

// The operands of an operator; of another expression it, and `null`.
fn halves(alloc: Global, e: Box<SpecExpr>) -> Result<(Box<SpecExpr>, Box<SpecExpr>), NoMemory>
    ensures { IfOk result (λ v. (boxed_view v.0 ≡ (applying.halves (boxed_view e)).0) × (boxed_view v.1 ≡ (applying.halves (boxed_view e)).1)) }
{
    let SpecExpr { at, form } = Box::into_inner(e);
    match form {
        SpecForm::Infix(_, a, b) => Ok((a, b)),
        form => both(
            boxed(alloc, SpecExpr { at, form }),
            boxed(
                alloc,
                SpecExpr {
                    at: 0,
                    form: SpecForm::Null,
                },
            ),
        ),
    }
}

// The first of them.
fn first_half(alloc: Global, e: Box<SpecExpr>) -> Result<Box<SpecExpr>, NoMemory>
    ensures { Gives boxed_view result (applying.halves (boxed_view e)).0 }
{
    let (first, second) = halves(alloc, e)?;
    discard(second);
    Ok(first)
}

// The second of them.
fn second_half(alloc: Global, e: Box<SpecExpr>) -> Result<Box<SpecExpr>, NoMemory>
    ensures { Gives boxed_view result (applying.halves (boxed_view e)).1 }
{
    let (first, second) = halves(alloc, e)?;
    discard(first);
    Ok(second)
}

// A sum over a range.
fn sum_over(
    alloc: Global,
    name: Identifier,
    range: Box<SpecExpr>,
    e: Box<SpecExpr>,
) -> Result<Start, NoMemory>
    ensures { Gives start_view result (applying.sum (identifier_view name) (boxed_view range) (boxed_view e)) }
{
    let ((name, e), (lower, upper)) = both(Ok((name, e)), halves(alloc, range))?;
    sum_between(
        name,
        (first_half(alloc, lower), second_half(alloc, upper)),
        e,
    )
}

// A sum between bounds, if they have been made.
fn sum_between(
    name: Identifier,
    bounds: (
        Result<Box<SpecExpr>, NoMemory>,
        Result<Box<SpecExpr>, NoMemory>,
    ),
    e: Box<SpecExpr>,
) -> Result<Start, NoMemory>
    ensures { (x y : PlainSpec) → Gives boxed_view bounds.0 x → Gives boxed_view bounds.1 y → Gives start_view result (values.Sum (identifier_view name) x y (boxed_view e)) }
{
    let ((name, e), (from, to)) = both(Ok((name, e)), both(bounds.0, bounds.1))?;
    Ok(Start::Sum(name, from, to, e))
}

/// `\sum`
pub fn sum(alloc: Global, parts: &mut NodeParts<Value>) -> Result<Value, NoMemory>
    ensures { Gives value_view result (meaning actions.Sum [] (parts_view parts.old)) }
{
    let range = expression(alloc, &mut parts.second);
    let e = expression(alloc, &mut parts.third);
    let (range, e) = both(range, e)?;
    let name = name(alloc, &mut parts.first);
    given(alloc, sum_over(alloc, name, range, e))
}
