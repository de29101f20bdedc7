//! Names, types, literals, and operands with what stands behind them.

ghost use Rattle.std.specs.Prelude.{◌≡◌, [], map};
ghost use Rattle.jd_jml_tokens.specs.Lexemes.{lexeme_view};
ghost use Rattle.jd_jml_tokens.specs.Lexemes as lexeme;
ghost use Rattle.jd_syntax.specs.JavaTypes.{BooleanType, IntArrayType, PlainIdentifier, identifier_view, written_view};
ghost use Rattle.jd_syntax.specs.SpecTrees.{PlainSpec, spec_view};
ghost use Rattle.jd_jml_values.specs.Heads as heads;
ghost use Rattle.jd_jml_values.specs.Values as values;
ghost use Rattle.jd_jml_values.specs.Views.{Gives, boxed_view, parts_view, value_view};
ghost use Rattle.jd_jml_expressions.specs.declared.action.Action.TheVariants as actions;
ghost use Rattle.jd_jml_expressions.specs.Meaning as plain;
ghost use Rattle.jd_jml_expressions.specs.Meaning.{meaning};

use crate::applying::{all_applied, begun, named};
use crate::lists::ordered_arguments;
use jd_base::NoMemory;
use jd_grammar::NodeParts;
use jd_jml_tokens::{Lexeme, place_of};
use jd_jml_values::{
    Value, boxed, discard, expression, identifier_at, int_type, is_dimension, name, suffixes,
    taken, type_at,
};
use jd_syntax::{Identifier, JavaType, SpecExpr, SpecForm, SpecPrefix, WrittenType};
use std::alloc::Global;

// An expression as what a node stands for.
fn given(e: Result<Box<SpecExpr>, NoMemory>) -> Result<Value, NoMemory>
    ensures { (x : PlainSpec) → Gives boxed_view e x → Gives value_view result (values.Expression x) }
{
    Ok(Value::Expression(e?))
}

// A name as what a node stands for.
fn given_name(name: Result<Identifier, NoMemory>) -> Result<Value, NoMemory>
    ensures { (x : PlainIdentifier) → Gives identifier_view name x → Gives value_view result (values.Named x) }
{
    Ok(Value::Named(name?))
}

/// A name.
pub fn identifier(alloc: Global, tokens: &[Lexeme<'_>]) -> Result<Value, NoMemory>
    ensures { Gives value_view result (values.Named (heads.identifier_at (map lexeme_view tokens.now))) }
{
    given_name(identifier_at(alloc, tokens))
}

/// `int` or `int[]`
pub fn int_or_array(tokens: &[Lexeme<'_>], parts: &mut NodeParts<Value>) -> Value
    ensures { value_view result ≡ meaning actions.IntType (map lexeme_view tokens.now) (parts_view parts.old) }
{
    Value::Typed(type_at(tokens, int_type(is_dimension(&mut parts.first))))
}

// A class as a type.
fn class_of(name: Identifier) -> WrittenType
    ensures { written_view result ≡ plain.class_of (identifier_view name) }
{
    let Identifier { at, name } = name;
    let written = JavaType::Named(name);
    WrittenType { at, written }
}

/// The name of a class as a type.
pub fn class_type(alloc: Global, parts: &mut NodeParts<Value>) -> Value
    ensures { value_view result ≡ meaning actions.ClassType [] (parts_view parts.old) }
{
    Value::Typed(class_of(name(alloc, &mut parts.first)))
}

/// The expression of this form that begins with the first token.
pub fn begins(alloc: Global, tokens: &[Lexeme<'_>], form: SpecForm) -> Result<Value, NoMemory>
    ensures { Gives value_view result (values.Expression (spec_view (record { at = lexeme.place_of 0 (map lexeme_view tokens.now); form = form }))) }
{
    let at = place_of(0, tokens);
    given(boxed(alloc, SpecExpr { at, form }))
}

/// `\old(e)`
pub fn old(
    alloc: Global,
    tokens: &[Lexeme<'_>],
    parts: &mut NodeParts<Value>,
) -> Result<Value, NoMemory>
    ensures { Gives value_view result (meaning actions.Old (map lexeme_view tokens.now) (parts_view parts.old)) }
{
    let e = expression(alloc, &mut parts.first)?;
    begins(alloc, tokens, SpecForm::Old(e))
}

/// `\fresh(e)`
pub fn fresh(
    alloc: Global,
    tokens: &[Lexeme<'_>],
    parts: &mut NodeParts<Value>,
) -> Result<Value, NoMemory>
    ensures { Gives value_view result (meaning actions.Fresh (map lexeme_view tokens.now) (parts_view parts.old)) }
{
    let e = expression(alloc, &mut parts.first)?;
    begins(alloc, tokens, SpecForm::Fresh(e))
}

/// `\invariant_for(e)`
pub fn invariant_for(
    alloc: Global,
    tokens: &[Lexeme<'_>],
    parts: &mut NodeParts<Value>,
) -> Result<Value, NoMemory>
    ensures { Gives value_view result (meaning actions.InvariantFor (map lexeme_view tokens.now) (parts_view parts.old)) }
{
    let e = expression(alloc, &mut parts.first)?;
    begins(alloc, tokens, SpecForm::InvariantFor(e))
}

/// `-` before an operand.
pub fn prefix(
    alloc: Global,
    op: SpecPrefix,
    tokens: &[Lexeme<'_>],
    parts: &mut NodeParts<Value>,
) -> Result<Value, NoMemory>
    ensures { Gives value_view result (meaning (actions.Prefix op) (map lexeme_view tokens.now) (parts_view parts.old)) }
{
    let e = expression(alloc, &mut parts.first)?;
    begins(alloc, tokens, SpecForm::Prefix(op, e))
}

/// An operand, and what stands behind it.
pub fn operand(alloc: Global, parts: &mut NodeParts<Value>) -> Result<Value, NoMemory>
    ensures { Gives value_view result (meaning actions.Operand [] (parts_view parts.old)) }
{
    let e = expression(alloc, &mut parts.first);
    let behind = suffixes(alloc, &mut parts.second);
    given(all_applied(alloc, e, behind))
}

/// A name, its arguments if it is called, and what stands behind it.
pub fn name_or_call(alloc: Global, parts: &mut NodeParts<Value>) -> Result<Value, NoMemory>
    ensures { Gives value_view result (meaning actions.Name [] (parts_view parts.old)) }
{
    let name = name(alloc, &mut parts.first);
    let arguments = ordered_arguments(&mut parts.second);
    let behind = suffixes(alloc, &mut parts.third);
    given(all_applied(alloc, named(alloc, name, arguments), behind))
}

/// What begins with the `(` at that place.
pub fn begun_at(alloc: Global, at: u32, value: Value) -> Result<Box<SpecExpr>, NoMemory>
    ensures { Gives boxed_view result (plain.begun_at at (value_view value)) }
{
    match value {
        Value::Started(start, behind) => all_applied(alloc, begun(alloc, at, start), behind),
        other => {
            discard(other);
            let form = SpecForm::Null;
            boxed(alloc, SpecExpr { at, form })
        }
    }
}

/// `(`, and what begins with it.
pub fn parenthesized(
    alloc: Global,
    tokens: &[Lexeme<'_>],
    parts: &mut NodeParts<Value>,
) -> Result<Value, NoMemory>
    ensures { Gives value_view result (meaning actions.Begun (map lexeme_view tokens.now) (parts_view parts.old)) }
{
    given(begun_at(alloc, place_of(0, tokens), taken(&mut parts.first)))
}

/// What is cast to `int[]`.
pub fn array_operand(alloc: Global, parts: &mut NodeParts<Value>) -> Result<Value, NoMemory>
    ensures { Gives value_view result (meaning actions.ArrayOperand [] (parts_view parts.old)) }
{
    Ok(Value::ArrayOperand(expression(alloc, &mut parts.first)?))
}

/// `boolean`
pub fn boolean_type(tokens: &[Lexeme<'_>]) -> Value
    ensures { value_view result ≡ values.Typed (heads.type_at (map lexeme_view tokens.now) BooleanType) }
{
    Value::Typed(type_at(tokens, JavaType::Boolean))
}

/// `int[]`
pub fn array_type(tokens: &[Lexeme<'_>]) -> Value
    ensures { value_view result ≡ values.Typed (heads.type_at (map lexeme_view tokens.now) IntArrayType) }
{
    Value::Typed(type_at(tokens, JavaType::IntArray))
}
