//! Formulas and terms, read from bracketed expressions.

ghost use Rattle.std.specs.Prelude.{◌≡◌};
ghost use Rattle.std.specs.Result.{MatchResult};
ghost use Rattle.jd_syntax.specs.Sxs.{sx_view};
ghost use Rattle.jd_term.specs.Formulas.{formula_view};
ghost use Rattle.jd_term.specs.TermViews.{term_view};
ghost use Rattle.jd_tforms.specs.Answers.{Is, formula_answer, term_answer};
ghost use Rattle.jd_tread.specs.Faults.{IsFault};
ghost use Rattle.jd_tparse.specs.Names.{table_of};

use crate::names::Names;
use jd_base::Sort;
use jd_syntax::Sx;
use jd_term::{Formula, Term};
use jd_tread::{TermRefusal, answer_formula, answer_term};
use std::alloc::Global;

/// The closed formula that the expression is, exactly as the grammar spells it with these names.
///
/// # Errors
///
/// The least that applies to any of its parts: `Syntax` if a part has no form at its place, `UnknownSymbol` if a name stands for
/// nothing there, `SortMismatch` if a part is of another sort, `TooDeep` if the formula has more than 1,000 levels. `NoMemory` if
/// memory runs out.
pub fn parse_formula(alloc: Global, x: &Sx, names: &Names<'_>) -> Result<Formula, TermRefusal>
    ensures { MatchResult result
        (λ a. formula_answer (table_of names.now) (sx_view x.now) ≡ Is (formula_view a))
        (λ e. IsFault e (formula_answer (table_of names.now) (sx_view x.now))) }
{
    answer_formula(alloc, names, x)
}

/// The closed term of that sort that the expression is, exactly as the grammar spells it with these names.
///
/// # Errors
///
/// The least that applies to any of its parts, as of [`parse_formula`].
pub fn parse_term(alloc: Global, x: &Sx, sort: Sort, names: &Names<'_>) -> Result<Term, TermRefusal>
    ensures { MatchResult result
        (λ t. term_answer (table_of names.now) sort (sx_view x.now) ≡ Is (term_view t))
        (λ e. IsFault e (term_answer (table_of names.now) sort (sx_view x.now))) }
{
    answer_term(alloc, names, sort, x)
}
