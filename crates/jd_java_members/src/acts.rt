//! What each action makes.

ghost use Rattle.std.specs.Prelude.{map};
ghost use Rattle.jd_java_tokens.specs.Lexemes.{lexeme_view};
ghost use Rattle.jd_java_values.specs.Views.{Gives, parts_view, value_view};
ghost use Rattle.jd_java_members.specs.Meaning.{meaning};

use crate::action::Action;
use crate::blocks::body_behind;
use crate::classes::{class, classes_before};
use crate::declarations::{
    boolean_declaration, constant, declarator, field_names, int_declaration, literal, name_before,
    named_declaration, negated_constant, routine, void_declaration,
};
use crate::members::{member, members_before};
use crate::parameters::{modifiers_before, parameter, parameters_before, specs};
use jd_base::NoMemory;
use jd_grammar::NodeParts;
use jd_java_tokens::Lexeme;
use jd_java_values::{Value, taken};
use std::alloc::Global;

/// What a node stands for, by its action, its tokens from the first on, and what its parts stand for. The parts that it needs are taken
/// out of their places.
///
/// # Errors
///
/// `NoMemory`.
pub fn act(
    alloc: Global,
    action: Action,
    tokens: &[Lexeme<'_>],
    parts: &mut NodeParts<Value>,
) -> Result<Value, NoMemory>
    ensures { Gives value_view result (meaning action (map lexeme_view tokens.now) (parts_view parts.old)) }
{
    match action {
        Action::Third => Ok(taken(&mut parts.third)),
        Action::Classes => classes_before(alloc, parts),
        Action::NoClasses => Ok(Value::Classes(Vec::new(alloc))),
        Action::Class => class(alloc, tokens, parts),
        Action::Modifiers => modifiers_before(alloc, parts),
        Action::NoModifiers => Ok(Value::Modifiers(false, Vec::new(alloc))),
        Action::Static => Ok(Value::Modifiers(true, Vec::new(alloc))),
        Action::Specs => specs(alloc, tokens),
        Action::Members => members_before(alloc, parts),
        Action::NoMembers => Ok(Value::Body(Vec::new(alloc), None)),
        Action::SpecsBefore => body_behind(alloc, tokens, parts),
        Action::Member => member(alloc, tokens, parts),
        Action::VoidDeclaration => Ok(void_declaration(alloc, parts)),
        Action::BooleanDeclaration => Ok(boolean_declaration(alloc, tokens, parts)),
        Action::IntDeclaration => Ok(int_declaration(alloc, tokens, taken(&mut parts.first))),
        Action::NamedDeclaration => named_declaration(alloc, tokens, taken(&mut parts.first)),
        Action::Declarator => Ok(declarator(alloc, false, parts)),
        Action::ArrayDeclarator => Ok(declarator(alloc, true, parts)),
        Action::Routine => Ok(routine(alloc, parts)),
        Action::Constant => Ok(constant(tokens)),
        Action::NegatedConstant => Ok(negated_constant(parts)),
        Action::Number => Ok(literal(tokens)),
        Action::FieldNames => Ok(field_names(alloc, parts)),
        Action::Names => name_before(alloc, parts),
        Action::NoNames => Ok(Value::Names(Vec::new(alloc))),
        Action::Parameters => parameters_before(alloc, parts),
        Action::NoParameters => Ok(Value::Parameters(Vec::new(alloc))),
        Action::Parameter => parameter(alloc, tokens, parts),
    }
}
