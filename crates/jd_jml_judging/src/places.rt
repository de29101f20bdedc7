//! Which clause is refused first.

ghost use Rattle.std.specs.Prelude.{◌≡◌, map, not, option_map, true};
ghost use Rattle.std.specs.Option.{option_copied};
ghost use Rattle.jd_jml_judging.specs.Contexts.{around_view, context_view, invariant_by, said, sofar_view, thrown_by, word_view};
ghost use Rattle.jd_jml_judging.specs.Visible.{locals_of};
ghost use Rattle.jd_specifications.specs.Clauses as plain;
ghost use Rattle.jd_specifications.specs.Types as types;
ghost use Rattle.jd_syntax.specs.JavaTypes.{identifier_view};
ghost use Rattle.jd_syntax.specs.SpecTrees.{clause_view, spec_view};

use crate::context::{
    Around, Context, Sofar, Word, at_first, before, behind, elsewhere, in_invariant, may_return,
    may_throw,
};
use crate::expressions::expression;
use crate::locations::locations;
use crate::names::{caught, no_names, of_method};
use crate::operators::{exception, exceptions};
use crate::rules::fault;
use jd_bodies::ValueType;
use jd_naming::Declares;
use jd_specifications::{SpecCause, SpecFault};
use jd_syntax::{ClauseForm, Identifier, SpecClause, SpecExpr};

// What is known behind a clause.
fn keep<D: Declares>(
    d: &D,
    s: Sofar,
    given: Result<ValueType, SpecFault>,
) -> Result<Sofar, SpecFault>
    ensures { said result ≡ plain.keep (D.declarations d.now) (sofar_view s) given }
{
    let _declared = d;
    let _given = given?;
    Ok(s)
}

// What is known behind a clause that its case may have.
fn allowed<D: Declares>(
    d: &D,
    may: bool,
    at: u32,
    s: Sofar,
    given: Result<ValueType, SpecFault>,
) -> Result<Sofar, SpecFault>
    ensures { said result ≡ plain.allowed (D.declarations d.now) may at (sofar_view s) given }
{
    let _declared = d;
    let _given = given?;
    if may {
        Ok(s)
    } else {
        Err(fault(at, SpecCause::BadClause))
    }
}

// An expression of the type that sees the method's names.
fn stated<D: Declares>(
    a: &Around<'_, D>,
    context: Context,
    want: ValueType,
    e: &SpecExpr,
) -> Result<ValueType, SpecFault>
    ensures { result ≡ types.expression (D.declarations a.now.declared.now) (context_view context) want (locals_of a.now.names.now) (spec_view e.now) }
{
    let names = of_method(a.names);
    expression(a, context, want, &*e, &names)
}

// What holds where an exception of the class is thrown.
fn thrown<'n, D: Declares>(
    a: &Around<'n, D>,
    c: &Identifier,
    x: Option<&'n Identifier>,
    e: &SpecExpr,
) -> Result<ValueType, SpecFault>
    ensures { result ≡ thrown_by (D.declarations a.now.declared.now) (around_view a.now) (identifier_view c.now) (option_map identifier_view (option_copied x.entry)) (spec_view e.now) }
{
    match exception(a.declared, c) {
        Err(fault) => Err(fault),
        Ok(t) => {
            let names = caught(a.declared, a.names, x, t);
            expression(a, elsewhere(a.place), ValueType::Boolean, &*e, &names)
        }
    }
}

// An invariant, which sees no names of a method.
fn invariant<D: Declares>(a: &Around<'_, D>, e: &SpecExpr) -> Result<ValueType, SpecFault>
    ensures { result ≡ invariant_by (D.declarations a.now.declared.now) (around_view a.now) (spec_view e.now) }
{
    let context = in_invariant(a.place.class);
    let names = no_names();
    expression(a, context, ValueType::Boolean, &*e, &names)
}

// With the behaviour word.
fn with_word(s: Sofar, word: Word) -> Sofar
    ensures { sofar_view result ≡ record (sofar_view s) { word = word_view word } }
{
    Sofar {
        word,
        measure: s.measure,
        diverges: s.diverges,
    }
}

// With a measure.
fn with_measure(s: Sofar) -> Sofar
    ensures { sofar_view result ≡ record (sofar_view s) { measure = true } }
{
    Sofar {
        word: s.word,
        measure: true,
        diverges: s.diverges,
    }
}

// With a `diverges`.
fn with_diverges(s: Sofar) -> Sofar
    ensures { sofar_view result ≡ record (sofar_view s) { diverges = true } }
{
    Sofar {
        word: s.word,
        measure: s.measure,
        diverges: true,
    }
}

// Whether that is not said yet.
fn unsaid(said: bool) -> bool
    ensures { result ≡ not said }
{
    !said
}

// A clause or word, behind others.
fn clause<D: Declares>(a: &Around<'_, D>, s: Sofar, c: &SpecClause) -> Result<Sofar, SpecFault>
    ensures { said result ≡ plain.clause (D.declarations a.now.declared.now) (around_view a.now) (sofar_view s) (clause_view c.now) }
{
    match &c.form {
        ClauseForm::Requires(e) => keep(
            a.declared,
            s,
            stated(a, before(a.place), ValueType::Boolean, e),
        ),
        ClauseForm::Ensures(e) => {
            let given = stated(a, behind(a.place, a.result), ValueType::Boolean, e);
            allowed(a.declared, may_return(s), c.at, s, given)
        }
        ClauseForm::Signals(k, x, e) => {
            let given = thrown(a, k, x.as_ref(), e);
            allowed(a.declared, may_throw(s), c.at, s, given)
        }
        ClauseForm::SignalsOnly(ks) => {
            let given = exceptions(a.declared, ks);
            allowed(a.declared, may_throw(s), c.at, s, given)
        }
        ClauseForm::Assignable(ls) => keep(a.declared, s, locations(a, elsewhere(a.place), ls)),
        ClauseForm::MeasuredBy(e) => {
            let given = stated(a, before(a.place), ValueType::Int, e);
            allowed(a.declared, unsaid(s.measure), c.at, with_measure(s), given)
        }
        ClauseForm::Diverges(_) => {
            allowed(
                a.declared,
                unsaid(s.diverges),
                c.at,
                with_diverges(s),
                Ok(ValueType::Null),
            )
        }
        ClauseForm::LoopInvariant(e) => {
            keep(
                a.declared,
                s,
                stated(a, elsewhere(a.place), ValueType::Boolean, e),
            )
        }
        ClauseForm::Decreases(e) => {
            let given = stated(a, elsewhere(a.place), ValueType::Int, e);
            allowed(a.declared, unsaid(s.measure), c.at, with_measure(s), given)
        }
        ClauseForm::Invariant(e) => keep(a.declared, s, invariant(a, e)),
        ClauseForm::NormalBehavior => Ok(with_word(s, Word::Normal)),
        ClauseForm::ExceptionalBehavior => Ok(with_word(s, Word::Exceptional)),
        ClauseForm::Also => Ok(at_first()),
        ClauseForm::Behavior => Ok(s),
        ClauseForm::Pure => Ok(s),
        ClauseForm::Helper => Ok(s),
        ClauseForm::Nullable => Ok(s),
        ClauseForm::NonNull => Ok(s),
        ClauseForm::SpecPublic => Ok(s),
        ClauseForm::SpecProtected => Ok(s),
    }
}

/// What is known behind the clauses of one place, behind what is known before them.
///
/// # Errors
///
/// The first refused token (JML Reference Manual, 8, 9, 12).
pub fn clauses<'n, D: Declares>(
    a: &Around<'n, D>,
    s: Sofar,
    cs: &'n [SpecClause],
) -> Result<Sofar, SpecFault>
    ensures { said result ≡ plain.clauses (D.declarations a.now.declared.now) (around_view a.now) (sofar_view s) (map clause_view cs.now) }
{
    let mut sofar = s;
    for c in cs {
        sofar = clause(a, sofar, c)?;
    }
    Ok(sofar)
}
