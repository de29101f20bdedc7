//! Names, literals, and what a member gives, its name and what stands behind that.

ghost use Rattle.std.specs.Prelude.{◌≡◌, [], List, map, pos};
ghost use Rattle.jd_java_tokens.specs.Lexemes.{lexeme_view};
ghost use Rattle.jd_java_tokens.specs.Heads as head;
ghost use Rattle.jd_syntax.specs.JavaTypes.{PlainIdentifier, PlainWritten, identifier_view, written_view};
ghost use Rattle.jd_syntax.specs.JavaTrees as java;
ghost use Rattle.jd_syntax.specs.JavaTrees.{result_view};
ghost use Rattle.jd_java_values.specs.Values as values;
ghost use Rattle.jd_java_values.specs.Parts as part;
ghost use Rattle.jd_java_values.specs.Heads.{int_type, type_at};
ghost use Rattle.jd_java_values.specs.Views.{Gives, backwards, declared_view, parts_view, value_view};
ghost use Rattle.jd_java_members.specs.Meaning as plain;
ghost use Rattle.jd_java_members.specs.declared.action.Action.TheVariants as actions;

use jd_base::{NoMemory, both};
use jd_grammar::NodeParts;
use jd_java_tokens::{Lexeme, number_of};
use jd_java_values::{
    Declared, Value, class_at, declared, identifier_at, in_order, int_type, name, names, number,
    parameters, statements, taken, type_at, with,
};
use jd_syntax::{Identifier, JavaType, ResultType, WrittenType};
use std::alloc::Global;

// Names, if they have been made.
fn names_given(names: Result<Vec<Identifier>, NoMemory>) -> Result<Value, NoMemory>
    ensures { (x : List PlainIdentifier) → Gives (backwards identifier_view) names x → Gives value_view result (values.Names x) }
{
    Ok(Value::Names(names?))
}

/// A name before others.
#[tactic(auto, using(jd_lists::proofs::Backwards::last_first))]
pub fn name_before(alloc: Global, parts: &mut NodeParts<Value>) -> Result<Value, NoMemory>
    ensures { Gives value_view result (plain.meaning actions.Names [] (parts_view parts.old)) }
{
    let name = name(alloc, taken(&mut parts.first));
    let names = names(alloc, taken(&mut parts.second));
    names_given(with(names, name))
}

/// The names of further fields.
#[tactic(auto, using(jd_lists::proofs::Backwards::map_reverse))]
pub fn field_names(alloc: Global, parts: &mut NodeParts<Value>) -> Value
    ensures { value_view result ≡ plain.meaning actions.FieldNames [] (parts_view parts.old) }
{
    let names = in_order(names(alloc, taken(&mut parts.first)));
    Value::Declared(Declared::FieldNames(names))
}

/// The parameters and the body of a method or a constructor.
#[tactic(auto, using(jd_lists::proofs::Backwards::map_reverse))]
pub fn routine(alloc: Global, parts: &mut NodeParts<Value>) -> Value
    ensures { value_view result ≡ plain.meaning actions.Routine [] (parts_view parts.old) }
{
    let parameters = in_order(parameters(alloc, taken(&mut parts.first)));
    let body = in_order(statements(alloc, taken(&mut parts.third)));
    Value::Declared(Declared::Routine(parameters, body))
}

/// A literal.
pub fn literal(tokens: &[Lexeme<'_>]) -> Value
    ensures { value_view result ≡ values.Number (head.number_of (map lexeme_view tokens.now)) }
{
    Value::Number(number_of(tokens))
}

/// A constant's value.
pub fn constant(tokens: &[Lexeme<'_>]) -> Value
    ensures { value_view result ≡ values.Declared (values.Constant (pos (head.number_of (map lexeme_view tokens.now)))) }
{
    Value::Declared(Declared::Constant(number_of(tokens) as i128))
}

// What stands behind `-`, below zero.
fn negated(number: u32) -> i128
    ensures { result ≡ plain.negated number }
{
    if number == 0 { 0 } else { -(number as i128) }
}

/// A constant's value behind `-`.
pub fn negated_constant(parts: &mut NodeParts<Value>) -> Value
    ensures { value_view result ≡ plain.meaning actions.NegatedConstant [] (parts_view parts.old) }
{
    Value::Declared(Declared::Constant(negated(number(taken(&mut parts.first)))))
}

/// Whether `[]` stands before a member's name, the name, and what stands behind it.
pub fn declarator(alloc: Global, is_array: bool, parts: &mut NodeParts<Value>) -> Value
    ensures { let p = parts_view parts.old in value_view result ≡ values.Declarator is_array (part.name_of p.first) (part.declared_of p.second) }
{
    let name = name(alloc, taken(&mut parts.first));
    let declared = declared(alloc, taken(&mut parts.second));
    Value::Declarator(is_array, name, declared)
}

/// What begins with `void`.
pub fn void_declaration(alloc: Global, parts: &mut NodeParts<Value>) -> Value
    ensures { value_view result ≡ plain.meaning actions.VoidDeclaration [] (parts_view parts.old) }
{
    let name = name(alloc, taken(&mut parts.first));
    let declared = declared(alloc, taken(&mut parts.second));
    Value::Declaration(ResultType::Void, name, declared)
}

/// What begins with `boolean`.
pub fn boolean_declaration(
    alloc: Global,
    tokens: &[Lexeme<'_>],
    parts: &mut NodeParts<Value>,
) -> Value
    ensures { value_view result ≡ plain.meaning actions.BooleanDeclaration (map lexeme_view tokens.now) (parts_view parts.old) }
{
    let name = name(alloc, taken(&mut parts.first));
    let declared = declared(alloc, taken(&mut parts.second));
    let gives = ResultType::Gives(type_at(tokens, JavaType::Boolean));
    Value::Declaration(gives, name, declared)
}

// `int` or `int[]`, as what a member gives.
fn gives_int(tokens: &[Lexeme<'_>], is_array: bool) -> ResultType
    ensures { result_view result ≡ java.Gives (type_at (map lexeme_view tokens.now) (int_type is_array)) }
{
    ResultType::Gives(type_at(tokens, int_type(is_array)))
}

/// What begins with `int`.
pub fn int_declaration(alloc: Global, tokens: &[Lexeme<'_>], value: Value) -> Value
    ensures { value_view result ≡ plain.int_declaration (map lexeme_view tokens.now) (value_view value) }
{
    match value {
        Value::Declarator(is_array, name, declared) => {
            Value::Declaration(gives_int(tokens, is_array), name, declared)
        }
        other => {
            let nameless = Identifier {
                at: 0,
                name: Vec::new(alloc),
            };
            Value::Declaration(gives_int(tokens, false), nameless, declared(alloc, other))
        }
    }
}

// A member of that type, if it has been made.
fn typed_declaration(
    ty: Result<WrittenType, NoMemory>,
    name: Identifier,
    declared: Declared,
) -> Result<Value, NoMemory>
    ensures { (t : PlainWritten) → Gives written_view ty t → Gives value_view result (values.Declaration (java.Gives t) (identifier_view name) (declared_view declared)) }
{
    let (ty, (name, declared)) = both(ty, Ok((name, declared)))?;
    Ok(Value::Declaration(ResultType::Gives(ty), name, declared))
}

// A constructor of that name, if it has been made.
fn constructor(name: Result<Identifier, NoMemory>, declared: Declared) -> Result<Value, NoMemory>
    ensures { (x : PlainIdentifier) → Gives identifier_view name x → Gives value_view result (values.Declaration java.OfConstructor x (declared_view declared)) }
{
    let (name, declared) = both(name, Ok(declared))?;
    Ok(Value::Declaration(ResultType::Constructor, name, declared))
}

/// What begins with a name: of its class, or a constructor's.
pub fn named_declaration(
    alloc: Global,
    tokens: &[Lexeme<'_>],
    value: Value,
) -> Result<Value, NoMemory>
    ensures { Gives value_view result (plain.named_declaration (map lexeme_view tokens.now) (value_view value)) }
{
    match value {
        Value::Declarator(_, name, declared) => typed_declaration(
            class_at(alloc, tokens),
            name,
            declared,
        ),
        other => constructor(identifier_at(alloc, tokens), declared(alloc, other)),
    }
}
