//! What the nodes of expressions stand for, by their actions.

ghost use Rattle.std.specs.Prelude.{◌≡◌, map};
ghost use Rattle.jd_jml_tokens.specs.Lexemes.{lexeme_view};
ghost use Rattle.jd_jml_values.specs.Views.{Gives, parts_view, value_view};
ghost use Rattle.jd_jml_expressions.specs.Meaning.{meaning};

use crate::action::Action;
use crate::{lists, operands, starts};
use jd_base::NoMemory;
use jd_grammar::NodeParts;
use jd_jml_tokens::{Lexeme, number_of};
use jd_jml_values::{Value, taken};
use jd_syntax::SpecForm;
use std::alloc::Global;

/// What a node of an expression stands for, by its action, its tokens from the first on, and what its parts stand for, which it takes
/// out of their places as it needs them.
///
/// # Errors
///
/// `NoMemory`.
pub fn act(
    alloc: Global,
    action: Action,
    tokens: &[Lexeme<'_>],
    parts: &mut NodeParts<Value>,
) -> Result<Value, NoMemory>
    ensures { Gives value_view result (meaning action (map lexeme_view tokens.now) (parts_view parts.old)) }
{
    match action {
        Action::Nothing => Ok(Value::Nothing),
        Action::First => Ok(taken(&mut parts.first)),
        Action::Identifier => operands::identifier(alloc, tokens),
        Action::Dimension => Ok(Value::Dimension),
        Action::BigInteger => Ok(Value::BigInteger),
        Action::IntType => Ok(operands::int_or_array(tokens, parts)),
        Action::BooleanType => Ok(operands::boolean_type(tokens)),
        Action::ArrayType => Ok(operands::array_type(tokens)),
        Action::ClassType => Ok(operands::class_type(alloc, parts)),
        Action::Number => operands::begins(alloc, tokens, SpecForm::Integer(number_of(tokens))),
        Action::Boolean(value) => operands::begins(alloc, tokens, SpecForm::Boolean(value)),
        Action::Null => operands::begins(alloc, tokens, SpecForm::Null),
        Action::This => operands::begins(alloc, tokens, SpecForm::This),
        Action::Result => operands::begins(alloc, tokens, SpecForm::Result),
        Action::Old => operands::old(alloc, tokens, parts),
        Action::Fresh => operands::fresh(alloc, tokens, parts),
        Action::InvariantFor => operands::invariant_for(alloc, tokens, parts),
        Action::Operand => operands::operand(alloc, parts),
        Action::Name => operands::name_or_call(alloc, parts),
        Action::Begun => operands::parenthesized(alloc, tokens, parts),
        Action::Prefix(op) => operands::prefix(alloc, op, tokens, parts),
        Action::NoSuffixes => Ok(Value::Suffixes(Vec::new(alloc))),
        Action::Infix(op) => lists::infix(alloc, op, parts),
        Action::InstanceOf => lists::instance_of(alloc, parts),
        Action::Choice => lists::choice(alloc, parts),
        Action::Implies => lists::implies(alloc, parts),
        Action::Equivalent => lists::equivalent(alloc, parts),
        Action::Member => lists::member(alloc, parts),
        Action::Element => lists::element(alloc, parts),
        Action::Parenthesis => starts::parenthesis(alloc, parts),
        Action::IntCast => starts::int_cast(alloc, tokens, parts),
        Action::BooleanCast => starts::boolean_cast(alloc, tokens, parts),
        Action::ArrayOperand => operands::array_operand(alloc, parts),
        Action::Followed => starts::followed(alloc, parts),
        Action::Quantified(quantifier) => starts::quantified(alloc, quantifier, parts),
        Action::Sum => starts::sum(alloc, parts),
        Action::NoExpressions => Ok(Value::Expressions(Vec::new(alloc))),
        Action::Expressions => lists::more_expressions(alloc, parts),
    }
}
