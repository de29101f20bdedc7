//! Formulas, read from bracketed expressions.

ghost use Rattle.std.specs.Prelude.{◌≡◌, IfOk, Some, map, option_map};
ghost use Rattle.jd_syntax.specs.Sxs.{bracketed_list, sx_view};
ghost use Rattle.jd_tgrammar.specs.NameTables.{NameTable};
ghost use Rattle.jd_term.specs.Formulas.{formula_view};
ghost use Rattle.jd_tforms.specs.Naming as naming;
ghost use Rattle.jd_tforms.specs.Reading as plain;
ghost use Rattle.jd_tread.specs.FormulaMakers as makers;
ghost use Rattle.jd_tread.specs.FormulaMakers.{boxed_view};
ghost use Rattle.jd_tcode.specs.Behind.{rest_of};
ghost use Rattle.jd_tcode.specs.Pairing.{Gives};

use crate::made_formulas::{
    Inside, bound, boxed, denied, member, modal, of_kind, one_term, two_formulas, two_terms,
    updated,
};
use crate::terms::{read_loc, read_term};
use crate::updates::read_update;
use jd_base::{NoMemory, Sort};
use jd_syntax::Sx;
use jd_tcode::{Part, Reader, first_word, kind_in, read_code, under};
use jd_term::Formula;
use jd_tforms::FormulaHead;
use jd_twords::{NameMeanings, formula_head, sort_of_word, word_formula};
use std::alloc::Global;

// The sort of a binder.
fn sort_in(x: &Sx) -> Option<Sort>
    ensures { (names : NameTable) → result ≡ plain.wording naming.sort_of_word (plain.read names (sx_view x.now)) }
{
    match x {
        Sx::Atom(word) => sort_of_word(word),
        Sx::List(_) => None,
    }
}

// A formula that is a part.
#[cycle(formula_at)]
fn read_boxed<N: NameMeanings>(at: &Reader<'_, N>, x: &Sx) -> Inside
    ensures { Gives boxed_view result ((plain.read (N.table at.now.names.now) (sx_view x.now)).formula at.now.binders.now) }
{
    boxed(at.alloc, formula_at(at, x))
}

// A formula under one more binder, of the sort that was read.
#[cycle(formula_at)]
fn read_bound<N: NameMeanings>(
    at: &Reader<'_, N>,
    head: FormulaHead,
    sort: Option<Sort>,
    x: &Sx,
) -> Part<Formula>
    ensures { Gives formula_view result (makers.below head at.now.binders.now sort (plain.read (N.table at.now.names.now) (sx_view x.now))) }
{
    let Some(sort) = sort else { return Ok(None) };
    let inner = under(at.alloc, sort, at.binders)?;
    let inside = Reader {
        alloc: at.alloc,
        names: at.names,
        binders: inner.as_slice(),
    };
    bound(head, sort, read_boxed(&inside, x))
}

// What stands behind the head of a formula.
#[cycle(formula_at)]
#[tactic(auto, using(jd_tcode::proofs::Counts::counts))]
fn formula_behind<N: NameMeanings>(
    at: &Reader<'_, N>,
    head: FormulaHead,
    parts: &[Sx],
) -> Part<Formula>
    ensures { Gives formula_view result (plain.formula_of (N.table at.now.names.now) at.now.binders.now (Some head) (rest_of (plain.reads (N.table at.now.names.now) (bracketed_list (map sx_view parts.now))))) }
{
    match head {
        FormulaHead::Not => match parts {
            [_, a] => denied(read_boxed(at, a)),
            _ => Ok(None),
        },
        FormulaHead::And | FormulaHead::Or | FormulaHead::Implies | FormulaHead::Iff => {
            match parts {
                [_, a, b] => two_formulas(head, read_boxed(at, a), read_boxed(at, b)),
                _ => Ok(None),
            }
        }
        FormulaHead::Forall | FormulaHead::Exists => {
            if parts.len() != 3 {
                return Ok(None);
            }
            let [_, sort, a] = parts else { return Ok(None) };
            read_bound(at, head, sort_in(sort), a)
        }
        FormulaHead::Updated => match parts {
            [_, pairs, a] => updated(read_update(at, pairs), read_boxed(at, a)),
            _ => Ok(None),
        },
        FormulaHead::Modal(modality) => match parts {
            [_, code, a] => modal(modality, read_code(at, code), read_boxed(at, a)),
            _ => Ok(None),
        },
        FormulaHead::Equal
        | FormulaHead::Less
        | FormulaHead::LessOrEqual
        | FormulaHead::Invariant => match parts {
            [_, a, b] => two_terms(head, read_term(at, a), read_term(at, b)),
            _ => Ok(None),
        },
        FormulaHead::InInt | FormulaHead::WellFormed => match parts {
            [_, a] => one_term(head, read_term(at, a)),
            _ => Ok(None),
        },
        FormulaHead::Instance | FormulaHead::Exact => {
            if parts.len() != 3 {
                return Ok(None);
            }
            let [_, kind, a] = parts else { return Ok(None) };
            of_kind(head, kind_in(at.names, kind), read_term(at, a))
        }
        FormulaHead::In => match parts {
            [_, a, b, l] => member(read_term(at, a), read_term(at, b), read_loc(at, l)),
            _ => Ok(None),
        },
    }
}

// A formula, whatever sorts its parts have.
#[cycle(formula_at)]
pub(crate) fn formula_at<N: NameMeanings>(at: &Reader<'_, N>, x: &Sx) -> Part<Formula>
    ensures { Gives formula_view result ((plain.read (N.table at.now.names.now) (sx_view x.now)).formula at.now.binders.now) }
{
    match x {
        Sx::Atom(word) => Ok(word_formula(word)),
        Sx::List(parts) => match first_word(parts) {
            None => Ok(None),
            Some(word) => match formula_head(word) {
                None => Ok(None),
                Some(head) => formula_behind(at, head, parts),
            },
        },
    }
}

/// A formula under these binders, the innermost first, whatever sorts its parts have; `None` where it has no form or a name in
/// it stands for nothing.
pub fn read_formula<N: NameMeanings>(
    alloc: Global,
    names: &N,
    binders: &[Sort],
    x: &Sx,
) -> Result<Option<Formula>, NoMemory>
    ensures { IfOk result (λ o. option_map formula_view o ≡ (plain.read (N.table names.now) (sx_view x.now)).formula binders.now) }
{
    let at = Reader {
        alloc,
        names,
        binders,
    };
    formula_at(&at, x)
}
