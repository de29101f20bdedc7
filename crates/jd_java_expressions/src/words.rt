//! Nodes of names, types and literals, whose parts tell nothing.

ghost use Rattle.std.specs.Prelude.{◌≡◌, map};
ghost use Rattle.jd_java_tokens.specs.Heads as heads;
ghost use Rattle.jd_java_tokens.specs.Lexemes.{lexeme_view};
ghost use Rattle.jd_syntax.specs.JavaTypes.{NamedType, type_view};
ghost use Rattle.jd_syntax.specs.JavaTrees as java;
ghost use Rattle.jd_java_values.specs.Heads as plain;
ghost use Rattle.jd_java_values.specs.Values.{Expression, Named, Typed};
ghost use Rattle.jd_java_values.specs.Views.{Gives, value_view};

use jd_base::NoMemory;
use jd_java_tokens::{Lexeme, number_of, place_of};
use jd_java_values::{Value, class_at, identifier_at, type_at};
use jd_syntax::{Expr, ExprForm, JavaType};
use std::alloc::Global;

/// A name.
pub fn identifier(alloc: Global, tokens: &[Lexeme<'_>]) -> Result<Value, NoMemory>
    ensures { Gives value_view result (Named (plain.identifier_at (map lexeme_view tokens.now))) }
{
    Ok(Value::Named(identifier_at(alloc, tokens)?))
}

/// A type that begins with the first token.
pub fn written(tokens: &[Lexeme<'_>], written: JavaType) -> Value
    ensures { value_view result ≡ Typed (plain.type_at (map lexeme_view tokens.now) (type_view written)) }
{
    Value::Typed(type_at(tokens, written))
}

/// The name of a class as a type.
pub fn class_type(alloc: Global, tokens: &[Lexeme<'_>]) -> Result<Value, NoMemory>
    ensures { Gives value_view result (Typed (plain.type_at (map lexeme_view tokens.now) (NamedType (heads.text_of (map lexeme_view tokens.now))))) }
{
    Ok(Value::Typed(class_at(alloc, tokens)?))
}

/// A literal.
pub fn number(tokens: &[Lexeme<'_>]) -> Value
    ensures { value_view result ≡ Expression (java.Integer (heads.place_of 0 (map lexeme_view tokens.now)) (heads.number_of (map lexeme_view tokens.now))) }
{
    let at = place_of(0, tokens);
    let form = ExprForm::Integer(number_of(tokens));
    Value::Expression(Expr { at, form })
}

/// `true` or `false`
pub fn boolean(tokens: &[Lexeme<'_>], value: bool) -> Value
    ensures { value_view result ≡ Expression (java.Boolean (heads.place_of 0 (map lexeme_view tokens.now)) value) }
{
    let at = place_of(0, tokens);
    let form = ExprForm::Boolean(value);
    Value::Expression(Expr { at, form })
}

/// `null`
pub fn null(tokens: &[Lexeme<'_>]) -> Value
    ensures { value_view result ≡ Expression (java.Null (heads.place_of 0 (map lexeme_view tokens.now))) }
{
    let at = place_of(0, tokens);
    let form = ExprForm::Null;
    Value::Expression(Expr { at, form })
}
