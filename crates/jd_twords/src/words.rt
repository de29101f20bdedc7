//! Terms, location sets, formulas and expressions of one word.

ghost use Rattle.std.specs.Prelude.{◌≡◌, IfOk, option_map};
ghost use Rattle.std.specs.Option.{option_or};
ghost use Rattle.jd_syntax.specs.CodeViews.{expr_view};
ghost use Rattle.jd_syntax.specs.Names.{var_view};
ghost use Rattle.jd_term.specs.Formulas.{formula_view};
ghost use Rattle.jd_term.specs.Terms as terms;
ghost use Rattle.jd_term.specs.TermViews.{const_view, loc_view, term_view};
ghost use Rattle.jd_tforms.specs.Naming as plain;
ghost use Rattle.jd_tforms.specs.Reading as reading;

use crate::names::NameMeanings;
use crate::shapes::{
    WIDE, bound_number, integer_of, is_name, is_word, literal_of, special_sort, truth_of,
};
use jd_base::{NoMemory, Sort, copy_bytes};
use jd_syntax::{CodeExpr, VarId};
use jd_term::{ConstId, Formula, Loc, Term};
use std::alloc::Global;

// `%k` under these binders, the innermost first.
fn bound_of(binders: &[Sort], word: &[u8]) -> Option<Term>
    ensures { option_map term_view result ≡ plain.bound_of binders.now word.now }
{
    match bound_number(word) {
        None => None,
        Some(k) => {
            if (k as usize) < binders.len() {
                Some(Term::Bound(k, binders[k as usize]))
            } else {
                None
            }
        }
    }
}

// `#..`
fn constant_of(alloc: Global, word: &[u8]) -> Result<Option<ConstId>, NoMemory>
    ensures { IfOk result (λ o. option_map const_view o ≡ plain.constant_of word.now) }
{
    if !is_name(word) {
        return Ok(None);
    }
    match special_sort(b'#', word) {
        None => Ok(None),
        Some(sort) => {
            let name = copy_bytes(alloc, word)?;
            Ok(Some(ConstId { name, sort }))
        }
    }
}

/// The variable of a name that tells its sort, `@` and its letter first.
pub fn variable_told(alloc: Global, word: &[u8]) -> Result<Option<VarId>, NoMemory>
    ensures { IfOk result (λ o. option_map var_view o ≡ plain.if_name word.now (plain.special_of word.now)) }
{
    if !is_name(word) {
        return Ok(None);
    }
    match special_sort(b'@', word) {
        None | Some(Sort::Field) => Ok(None),
        Some(sort) => {
            let name = copy_bytes(alloc, word)?;
            Ok(Some(VarId { name, sort }))
        }
    }
}

/// A location set of one word.
pub fn word_loc(word: &[u8]) -> Option<Loc>
    ensures { option_map loc_view result ≡ plain.word_loc word.now }
{
    if is_word(b"none", word) {
        Some(Loc::NoLocations)
    } else if is_word(b"all", word) {
        Some(Loc::AllLocations)
    } else {
        None
    }
}

/// A formula of one word.
pub fn word_formula(word: &[u8]) -> Option<Formula>
    ensures { option_map formula_view result ≡ reading.truth_formula word.now }
{
    match truth_of(word) {
        None => None,
        Some(true) => Some(Formula::TrueFormula),
        Some(false) => Some(Formula::FalseFormula),
    }
}

// A term of one word that is a name.
fn named_term<N: NameMeanings>(
    alloc: Global,
    names: &N,
    word: &[u8],
) -> Result<Option<Term>, NoMemory>
    ensures { IfOk result (λ o. option_map term_view o ≡ option_or (option_map terms.Constant (plain.constant_of word.now)) (option_or (option_map terms.ProgramVariable (plain.variable_of (N.table names.now) word.now)) (option_map terms.NamedField (plain.field_of (N.table names.now) word.now)))) }
{
    match constant_of(alloc, word)? {
        Some(constant) => Ok(Some(Term::Constant(constant))),
        None => match names.variable_of(alloc, word)? {
            Some(variable) => Ok(Some(Term::ProgramVariable(variable))),
            None => match names.field_of(word) {
                Some(field) => Ok(Some(Term::NamedField(field))),
                None => Ok(None),
            },
        },
    }
}

/// A term of one word, under these binders, the innermost first.
pub fn word_term<N: NameMeanings>(
    alloc: Global,
    names: &N,
    binders: &[Sort],
    word: &[u8],
) -> Result<Option<Term>, NoMemory>
    ensures { IfOk result (λ o. option_map term_view o ≡ plain.word_term (N.table names.now) binders.now word.now) }
{
    match truth_of(word) {
        Some(truth) => Ok(Some(Term::Boolean(truth))),
        None => {
            if is_word(b"null", word) {
                Ok(Some(Term::NullTerm))
            } else if is_word(b"created", word) {
                Ok(Some(Term::CreatedField))
            } else {
                match integer_of(word, WIDE) {
                    Some(n) => Ok(Some(Term::Number(n))),
                    None => match bound_of(binders, word) {
                        Some(bound) => Ok(Some(bound)),
                        None => named_term(alloc, names, word),
                    },
                }
            }
        }
    }
}

/// An expression of one word.
pub fn word_expr<N: NameMeanings>(
    alloc: Global,
    names: &N,
    word: &[u8],
) -> Result<Option<CodeExpr>, NoMemory>
    ensures { IfOk result (λ o. option_map expr_view o ≡ plain.word_expr (N.table names.now) word.now) }
{
    match truth_of(word) {
        Some(truth) => Ok(Some(CodeExpr::BoolLiteral(truth))),
        None => {
            if is_word(b"null", word) {
                Ok(Some(CodeExpr::NullLiteral))
            } else {
                match literal_of(word) {
                    Some(n) => Ok(Some(CodeExpr::IntLiteral(n))),
                    None => match names.variable_of(alloc, word)? {
                        Some(variable) => Ok(Some(CodeExpr::Variable(variable))),
                        None => Ok(None),
                    },
                }
            }
        }
    }
}
