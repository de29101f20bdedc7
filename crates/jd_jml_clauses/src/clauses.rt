//! Clauses and words.

ghost use Rattle.std.specs.Prelude.{◌≡◌, ◌∷◌, ◌++◌, [], List, map};
ghost use Rattle.jd_jml_tokens.specs.Lexemes.{lexeme_view, place_of as the_place};
ghost use Rattle.jd_syntax.specs.JavaTypes.{PlainIdentifier, identifier_view};
ghost use Rattle.jd_syntax.specs.SpecTrees.{PlainClause, clause_form, clause_view, spec_view};
ghost use Rattle.jd_jml_values.specs.Values as values;
ghost use Rattle.jd_jml_values.specs.Parts as part;
ghost use Rattle.jd_jml_values.specs.Views.{Gives, backwards, parts_view, value_view};
ghost use Rattle.jd_jml_clauses.specs.Meaning as plain;
ghost use Rattle.jd_jml_clauses.specs.Meaning.{meaning};
ghost use Rattle.jd_jml_clauses.specs.declared.action.Action.TheVariants as actions;

use crate::action::{Assertion, Word};
use jd_base::NoMemory;
use jd_grammar::NodeParts;
use jd_jml_tokens::{Lexeme, place_of};
use jd_jml_values::{
    Value, appended, clauses, discard, expression, in_order, locations, name, names, some_name,
    taken, with,
};
use jd_syntax::{ClauseForm, Identifier, SpecClause, SpecExpr, SpecForm};
use std::alloc::Global;

// Clauses as what a node stands for.
fn given(clauses: Result<Vec<SpecClause>, NoMemory>) -> Result<Value, NoMemory>
    ensures { (x : List PlainClause) → Gives (backwards clause_view) clauses x → Gives value_view result (values.Clauses x) }
{
    Ok(Value::Clauses(clauses?))
}

// A clause before others.
#[tactic(auto, using(jd_lists::proofs::Backwards::last_first))]
fn clause_before(clause: SpecClause, others: Vec<SpecClause>) -> Result<Value, NoMemory>
    ensures { Gives value_view result (values.Clauses (clause_view clause ∷ backwards clause_view others)) }
{
    given(with(others, clause))
}

// A clause that begins with the first token.
fn clause(alloc: Global, tokens: &[Lexeme<'_>], form: ClauseForm) -> Result<Value, NoMemory>
    ensures { Gives value_view result (values.Clauses (clause_form (the_place 0 (map lexeme_view tokens.now)) form ∷ [])) }
{
    let at = place_of(0, tokens);
    clause_before(SpecClause { at, form }, Vec::new(alloc))
}

// The clauses of a last part, if it has some, behind others; no list but a short one is copied.
#[tactic(auto, using(jd_lists::proofs::Backwards::reversed_append, crate::proofs::Lists::nothing_behind))]
fn ended(others: Vec<SpecClause>, last: Value) -> Result<Vec<SpecClause>, NoMemory>
    ensures { Gives (backwards clause_view) result (backwards clause_view others ++ part.clauses_of (value_view last)) }
{
    match last {
        Value::Clauses(last) => appended(last, others),
        other => {
            discard(other);
            Ok(others)
        }
    }
}

// The clauses of the parts, the last first.
#[tactic(auto, using(jd_lists::proofs::Backwards::reversed_append))]
fn all(alloc: Global, parts: &mut NodeParts<Value>) -> Result<Vec<SpecClause>, NoMemory>
    ensures { Gives (backwards clause_view) result (plain.all_clauses (parts_view parts.old)) }
{
    let second = clauses(alloc, &mut parts.second);
    let behind = ended(second, taken(&mut parts.third))?;
    appended(behind, clauses(alloc, &mut parts.first))
}

/// The clauses of all parts.
pub fn all_clauses(alloc: Global, parts: &mut NodeParts<Value>) -> Result<Value, NoMemory>
    ensures { Gives value_view result (meaning actions.AllClauses [] (parts_view parts.old)) }
{
    given(all(alloc, parts))
}

fn word_at(at: u32, word: Word) -> SpecClause
    ensures { clause_view result ≡ plain.word at word }
{
    let form = match word {
        Word::Also => ClauseForm::Also,
        Word::NormalBehavior => ClauseForm::NormalBehavior,
        Word::ExceptionalBehavior => ClauseForm::ExceptionalBehavior,
        Word::Behavior => ClauseForm::Behavior,
        Word::Pure => ClauseForm::Pure,
        Word::Helper => ClauseForm::Helper,
        Word::Nullable => ClauseForm::Nullable,
        Word::NonNull => ClauseForm::NonNull,
        Word::SpecPublic => ClauseForm::SpecPublic,
        Word::SpecProtected => ClauseForm::SpecProtected,
    };
    SpecClause { at, form }
}

/// A word, and the clauses of all parts.
pub fn word(
    alloc: Global,
    word: Word,
    tokens: &[Lexeme<'_>],
    parts: &mut NodeParts<Value>,
) -> Result<Value, NoMemory>
    ensures { Gives value_view result (meaning (actions.Word word) (map lexeme_view tokens.now) (parts_view parts.old)) }
{
    let others = all(alloc, parts)?;
    clause_before(word_at(place_of(0, tokens), word), others)
}

fn assertion_at(at: u32, assertion: Assertion, e: SpecExpr) -> SpecClause
    ensures { clause_view result ≡ plain.asserted at assertion (spec_view e) }
{
    let form = match assertion {
        Assertion::Requires => ClauseForm::Requires(e),
        Assertion::Ensures => ClauseForm::Ensures(e),
        Assertion::MeasuredBy => ClauseForm::MeasuredBy(e),
        Assertion::LoopInvariant => ClauseForm::LoopInvariant(e),
        Assertion::Decreases => ClauseForm::Decreases(e),
        Assertion::Invariant => ClauseForm::Invariant(e),
    };
    SpecClause { at, form }
}

/// A clause of one expression.
pub fn asserts(
    alloc: Global,
    assertion: Assertion,
    tokens: &[Lexeme<'_>],
    parts: &mut NodeParts<Value>,
) -> Result<Value, NoMemory>
    ensures { Gives value_view result (meaning (actions.Asserts assertion) (map lexeme_view tokens.now) (parts_view parts.old)) }
{
    let e = expression(alloc, &mut parts.first)?;
    let clause = assertion_at(place_of(0, tokens), assertion, Box::into_inner(e));
    clause_before(clause, Vec::new(alloc))
}

/// `signals (C x) e;`
pub fn signals(
    alloc: Global,
    tokens: &[Lexeme<'_>],
    parts: &mut NodeParts<Value>,
) -> Result<Value, NoMemory>
    ensures { Gives value_view result (meaning actions.Signals (map lexeme_view tokens.now) (parts_view parts.old)) }
{
    let e = expression(alloc, &mut parts.third)?;
    let class = name(alloc, &mut parts.first);
    let variable = some_name(&mut parts.second);
    clause(
        alloc,
        tokens,
        ClauseForm::Signals(class, variable, Box::into_inner(e)),
    )
}

/// `signals_only C, ..;`
#[tactic(auto, using(jd_lists::proofs::Backwards::map_reverse))]
pub fn signals_only(
    alloc: Global,
    tokens: &[Lexeme<'_>],
    parts: &mut NodeParts<Value>,
) -> Result<Value, NoMemory>
    ensures { Gives value_view result (meaning actions.SignalsOnly (map lexeme_view tokens.now) (parts_view parts.old)) }
{
    let classes = in_order(names(alloc, &mut parts.first));
    clause(alloc, tokens, ClauseForm::SignalsOnly(classes))
}

/// `assignable l, ..;`
#[tactic(auto, using(jd_lists::proofs::Backwards::map_reverse))]
pub fn assignable(
    alloc: Global,
    tokens: &[Lexeme<'_>],
    parts: &mut NodeParts<Value>,
) -> Result<Value, NoMemory>
    ensures { Gives value_view result (meaning actions.Assignable (map lexeme_view tokens.now) (parts_view parts.old)) }
{
    let locations = in_order(locations(alloc, &mut parts.first));
    clause(alloc, tokens, ClauseForm::Assignable(locations))
}

// Whether it is `true`.
fn truth(e: &SpecExpr) -> bool
    ensures { result ≡ plain.truth_of (spec_view e.now) }
{
    match &e.form {
        SpecForm::Boolean(value) => *value,
        _ => false,
    }
}

/// `diverges true;`
pub fn diverges(
    alloc: Global,
    tokens: &[Lexeme<'_>],
    parts: &mut NodeParts<Value>,
) -> Result<Value, NoMemory>
    ensures { Gives value_view result (meaning actions.Diverges (map lexeme_view tokens.now) (parts_view parts.old)) }
{
    let e = expression(alloc, &mut parts.first)?;
    let value = truth(&e);
    discard(e);
    clause(alloc, tokens, ClauseForm::Diverges(value))
}

// Names as what a node stands for.
fn given_names(names: Result<Vec<Identifier>, NoMemory>) -> Result<Value, NoMemory>
    ensures { (x : List PlainIdentifier) → Gives (backwards identifier_view) names x → Gives value_view result (values.Names x) }
{
    Ok(Value::Names(names?))
}

/// A name, and others.
#[tactic(auto, using(jd_lists::proofs::Backwards::last_first))]
pub fn more_names(alloc: Global, parts: &mut NodeParts<Value>) -> Result<Value, NoMemory>
    ensures { Gives value_view result (meaning actions.Names [] (parts_view parts.old)) }
{
    let name = name(alloc, &mut parts.first);
    given_names(with(names(alloc, &mut parts.second), name))
}
