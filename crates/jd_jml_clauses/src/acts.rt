//! What the nodes of clauses and locations stand for, by their actions.

ghost use Rattle.std.specs.Prelude.{◌≡◌, map};
ghost use Rattle.jd_jml_tokens.specs.Lexemes.{lexeme_view};
ghost use Rattle.jd_jml_values.specs.Views.{Gives, parts_view, value_view};
ghost use Rattle.jd_jml_clauses.specs.Meaning.{meaning};

use crate::action::Action;
use crate::{clauses, locations};
use jd_base::NoMemory;
use jd_grammar::NodeParts;
use jd_jml_tokens::{Lexeme, place_of};
use jd_jml_values::{End, Value};
use jd_syntax::LocForm;
use std::alloc::Global;

/// What a node of clauses or locations stands for, by its action, its tokens from the first on, and what its parts stand for, which it
/// takes out of their places as it needs them.
///
/// # Errors
///
/// `NoMemory`.
pub fn act(
    alloc: Global,
    action: Action,
    tokens: &[Lexeme<'_>],
    parts: &mut NodeParts<Value>,
) -> Result<Value, NoMemory>
    ensures { Gives value_view result (meaning action (map lexeme_view tokens.now) (parts_view parts.old)) }
{
    match action {
        Action::AllClauses => clauses::all_clauses(alloc, parts),
        Action::Word(word) => clauses::word(alloc, word, tokens, parts),
        Action::Asserts(assertion) => clauses::asserts(alloc, assertion, tokens, parts),
        Action::Signals => clauses::signals(alloc, tokens, parts),
        Action::SignalsOnly => clauses::signals_only(alloc, tokens, parts),
        Action::Assignable => clauses::assignable(alloc, tokens, parts),
        Action::Diverges => clauses::diverges(alloc, tokens, parts),
        Action::NoNames => Ok(Value::Names(Vec::new(alloc))),
        Action::Names => clauses::more_names(alloc, parts),
        Action::NothingAssigned => locations::location(
            alloc,
            place_of(0, tokens),
            LocForm::Nothing,
        ),
        Action::EverythingAssigned => locations::location(
            alloc,
            place_of(0, tokens),
            LocForm::Everything,
        ),
        Action::Locations => locations::both_locations(alloc, parts),
        Action::NamedLocation => locations::begins_with_name(alloc, parts),
        Action::OperandLocation => locations::begins_with_operand(alloc, tokens, parts),
        Action::BegunLocation => locations::begins_in_parentheses(alloc, tokens, parts),
        Action::Invoked => Ok(locations::invoked(alloc, parts)),
        Action::AllFields => Ok(Value::Steps(Vec::new(alloc), End::AllFields)),
        Action::AllElements => Ok(Value::Steps(Vec::new(alloc), End::AllElements)),
        Action::MemberStep => locations::member_step(alloc, parts),
        Action::IndexStep => locations::index_step(alloc, parts),
        Action::Bound => locations::bound(alloc, parts),
    }
}
