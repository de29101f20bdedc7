//! The answer to an expression where a term or a formula has to stand.

ghost use Rattle.std.specs.Prelude.{◌≡◌, cond, nat_lt};
ghost use Rattle.std.specs.Result.{MatchResult};
ghost use Rattle.jd_syntax.specs.Sxs.{sx_view};
ghost use Rattle.jd_term.specs.Formulas.{formula_view};
ghost use Rattle.jd_term.specs.FormulaSizes.{formula_depth};
ghost use Rattle.jd_term.specs.TermSizes.{term_depth};
ghost use Rattle.jd_term.specs.TermViews.{term_view};
ghost use Rattle.jd_tforms.specs.Answers as plain;
ghost use Rattle.jd_tforms.specs.Answers.{Is};
ghost use Rattle.jd_tforms.specs.HasForm as plain_forms;
ghost use Rattle.jd_twords.specs.Places.{place_view};
ghost use Rattle.jd_tread.specs.Faults.{IsFault};
ghost use Rattle.jd_tread.specs.declared.refusal.TermRefusal.TheVariants as refusals;

use crate::formulas::read_formula;
use crate::refusal::TermRefusal;
use crate::terms::read_term;
use jd_base::Sort;
use jd_syntax::Sx;
use jd_tcode::Reader;
use jd_term::{Formula, Term, depth, depth_term};
use jd_tsorts::{NameSorts, is_of, is_sorted_formula};
use jd_twords::{NameMeanings, Place, has_form};
use std::alloc::Global;

// Why nothing was read of the expression.
fn unread(x: &Sx, place: Place<'_>) -> TermRefusal
    ensures { result ≡ cond (plain_forms.has_form (sx_view x.now) (place_view place.entry)) refusals.UnknownSymbol refusals.Syntax }
{
    if has_form(x, place) {
        TermRefusal::UnknownSymbol
    } else {
        TermRefusal::Syntax
    }
}

// Whether the term is deeper than any may be.
#[tactic(auto, using(crate::proofs::Deciding::deep))]
fn is_deep_term(term: &Term) -> bool
    ensures { result ≡ nat_lt plain.most_deep (term_depth (term_view term.now)) }
{
    1000 < depth_term(term)
}

/// The closed term of that sort that the expression is, exactly as the grammar spells it over what the names stand for.
///
/// # Errors
///
/// The least fault of all parts, exactly. Want of memory.
pub fn answer_term<N: NameMeanings>(
    alloc: Global,
    names: &N,
    sort: Sort,
    x: &Sx,
) -> Result<Term, TermRefusal>
    ensures { MatchResult result
        (λ t. plain.term_answer (N.table names.now) sort (sx_view x.now) ≡ Is (term_view t))
        (λ e. IsFault e (plain.term_answer (N.table names.now) sort (sx_view x.now))) }
{
    let binders: [Sort; 0] = [];
    let at = Reader {
        alloc,
        names,
        binders: &binders,
    };
    let Some(term) = read_term(&at, x)? else {
        return Err(unread(x, Place::Term));
    };
    if !is_of(sort, &term) {
        return Err(TermRefusal::SortMismatch);
    }
    if is_deep_term(&term) {
        return Err(TermRefusal::TooDeep);
    }
    Ok(term)
}

// Whether the formula is deeper than any may be.
#[tactic(auto, using(crate::proofs::Deciding::deep))]
fn is_too_deep(formula: &Formula) -> bool
    ensures { result ≡ nat_lt plain.most_deep (formula_depth (formula_view formula.now)) }
{
    1000 < depth(formula)
}

/// The closed formula that the expression is, exactly as the grammar spells it over what the names stand for.
///
/// # Errors
///
/// The least fault of all parts, exactly. Want of memory.
pub fn answer_formula<N: NameSorts>(
    alloc: Global,
    names: &N,
    x: &Sx,
) -> Result<Formula, TermRefusal>
    ensures { MatchResult result
        (λ a. plain.formula_answer (N.table names.now) (sx_view x.now) ≡ Is (formula_view a))
        (λ e. IsFault e (plain.formula_answer (N.table names.now) (sx_view x.now))) }
{
    let binders: [Sort; 0] = [];
    let Some(formula) = read_formula(alloc, names, &binders, x)? else {
        return Err(unread(x, Place::Formula));
    };
    if !is_sorted_formula(names, &formula) {
        return Err(TermRefusal::SortMismatch);
    }
    if is_too_deep(&formula) {
        return Err(TermRefusal::TooDeep);
    }
    Ok(formula)
}
