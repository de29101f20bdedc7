//! What the nodes of expressions stand for, by their actions.

ghost use Rattle.std.specs.Prelude.{map};
ghost use Rattle.jd_java_tokens.specs.Lexemes.{lexeme_view};
ghost use Rattle.jd_java_values.specs.Views.{Gives, parts_view, value_view};
ghost use Rattle.jd_java_expressions.specs.Meaning.{meaning};

use crate::action::Action;
use crate::pieces::{
    all_suffixes, arguments_and_behind, expression_and_behind, expression_and_second,
    first_and_behind, first_expression, name_and_behind,
};
use crate::{behind, calls, operands, starts, words};
use jd_base::NoMemory;
use jd_grammar::NodeParts;
use jd_java_tokens::Lexeme;
use jd_java_values::{Value, int_type, is_dimension, taken, type_at};
use jd_syntax::JavaType;
use std::alloc::Global;

/// What a node of an expression stands for, by its action, its tokens from the first on, and what its parts stand for. The parts that it
/// needs are taken out of their places.
pub fn act(
    alloc: Global,
    action: Action,
    tokens: &[Lexeme<'_>],
    parts: &mut NodeParts<Value>,
) -> Result<Value, NoMemory>
    ensures { Gives value_view result (meaning action (map lexeme_view tokens.now) (parts_view parts.old)) }
{
    match action {
        Action::Nothing => Ok(Value::Nothing),
        Action::First => Ok(taken(&mut parts.first)),
        Action::Identifier => words::identifier(alloc, tokens),
        Action::Dimension => Ok(Value::Dimension),
        Action::IntType => Ok(words::written(
            tokens,
            int_type(is_dimension(taken(&mut parts.first))),
        )),
        Action::BooleanType => Ok(words::written(tokens, JavaType::Boolean)),
        Action::ArrayType => Ok(words::written(tokens, JavaType::IntArray)),
        Action::ClassType => words::class_type(alloc, tokens),
        Action::Number => Ok(words::number(tokens)),
        Action::Boolean(value) => Ok(words::boolean(tokens, value)),
        Action::Null => Ok(words::null(tokens)),
        Action::Operand => operands::operand(alloc, expression_and_behind(alloc, parts)),
        Action::Name => operands::name(alloc, tokens, arguments_and_behind(alloc, parts)),
        Action::This => operands::this(alloc, tokens, all_suffixes(alloc, parts)),
        Action::Inside => operands::inside(alloc, tokens, expression_and_behind(alloc, parts)),
        Action::Begun => operands::begun(alloc, tokens, taken(&mut parts.first)),
        Action::NameEffect => operands::name_effect(alloc, tokens, taken(&mut parts.first)),
        Action::Prefix(op) => operands::prefix(alloc, op, tokens, first_expression(parts)),
        Action::Suffixes => behind::suffixes(all_suffixes(alloc, parts)),
        Action::Infix(op) => behind::infix(op, expression_and_behind(alloc, parts)),
        Action::InstanceOf => behind::instance_of(first_and_behind(alloc, parts)),
        Action::Assign(op) => behind::assign(alloc, op, first_expression(parts)),
        Action::Choice => behind::choice(alloc, expression_and_second(parts)),
        Action::Member => behind::member(name_and_behind(alloc, parts)),
        Action::Element => behind::element(expression_and_behind(alloc, parts)),
        Action::Count(op) => behind::count(alloc, op),
        Action::Parenthesis => Ok(starts::parenthesis(alloc, expression_and_second(parts))),
        Action::IntCast => Ok(starts::int_cast(alloc, tokens, taken(&mut parts.first))),
        Action::BooleanCast => Ok(starts::cast(
            alloc,
            type_at(tokens, JavaType::Boolean),
            first_expression(parts),
        )),
        Action::ArrayOperand => Ok(Value::ArrayOperand(first_expression(parts))),
        Action::Object => starts::object(alloc, name_and_behind(alloc, parts)),
        Action::Array => starts::array(expression_and_behind(alloc, parts)),
        Action::BehindName => calls::behind_name(alloc, arguments_and_behind(alloc, parts)),
        Action::NoExpressions => Ok(calls::no_expressions(alloc)),
        Action::Expressions => calls::more_expressions(alloc, expression_and_second(parts)),
    }
}
