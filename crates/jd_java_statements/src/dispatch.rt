//! What each action makes of the parts of its node.

ghost use Rattle.std.specs.Prelude.{◌≡◌, map};
ghost use Rattle.jd_java_tokens.specs.Lexemes.{lexeme_view};
ghost use Rattle.jd_java_values.specs.Views.{Gives, parts_view, value_view};
ghost use Rattle.jd_java_statements.specs.Meaning.{meaning};

use crate::action::Action;
use crate::branches::{catch, finally, if_statement, rescue, several_handlers, try_block};
use crate::loops::{annotated, for_loop, label, while_loop};
use crate::named::{name_effects, named_start, named_statement};
use crate::simple::{
    after_super, block, break_off, empty, evaluate, give_back, go_on, several_statements, throw,
};
use crate::variables::{
    boolean_local, boolean_start, final_local, int_local, int_start, several_variables,
};
use jd_base::NoMemory;
use jd_grammar::NodeParts;
use jd_java_tokens::Lexeme;
use jd_java_values::{Value, taken};
use std::alloc::Global;

/// What a node of a statement stands for, by its action, its tokens from the first on, and what its parts stand for. The parts that it
/// needs are taken out of their places.
pub fn act(
    alloc: Global,
    action: Action,
    tokens: &[Lexeme<'_>],
    parts: &mut NodeParts<Value>,
) -> Result<Value, NoMemory>
    ensures { Gives value_view result (meaning action (map lexeme_view tokens.now) (parts_view parts.old)) }
{
    match action {
        Action::Block => block(alloc, tokens, parts),
        Action::Empty => empty(alloc, tokens),
        Action::Evaluate => evaluate(alloc, parts),
        Action::If => if_statement(alloc, tokens, parts),
        Action::While => while_loop(alloc, tokens, parts),
        Action::For => for_loop(alloc, tokens, parts),
        Action::Label => label(alloc, tokens, parts),
        Action::Annotated => annotated(alloc, tokens, parts),
        Action::Break => break_off(alloc, tokens, parts),
        Action::Continue => go_on(alloc, tokens, parts),
        Action::Return => give_back(alloc, tokens, parts),
        Action::Throw => throw(alloc, tokens, parts),
        Action::Try => try_block(alloc, tokens, parts),
        Action::Named => named_statement(alloc, tokens, taken(&mut parts.first)),
        Action::FinalLocal => final_local(alloc, tokens, parts),
        Action::IntLocal => int_local(alloc, tokens, parts),
        Action::BooleanLocal => boolean_local(alloc, tokens, parts),
        Action::Variables => several_variables(alloc, parts),
        Action::NoVariables => Ok(Value::Variables(Vec::new(alloc))),
        Action::IntStart => int_start(alloc, tokens, parts),
        Action::BooleanStart => boolean_start(alloc, tokens, parts),
        Action::NamedStart => named_start(alloc, tokens, taken(&mut parts.first)),
        Action::NameEffects => name_effects(alloc, parts),
        Action::Rescue => rescue(alloc, parts),
        Action::Finally => finally(alloc, parts),
        Action::Handlers => several_handlers(alloc, parts),
        Action::NoHandlers => Ok(Value::Handlers(Vec::new(alloc))),
        Action::Catch => catch(alloc, tokens, parts),
        Action::Statements => several_statements(alloc, parts),
        Action::NoStatements => Ok(Value::Statements(Vec::new(alloc))),
        Action::Super => after_super(alloc, tokens, parts),
    }
}
