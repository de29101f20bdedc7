//! Formulas, made of what was read of their parts.

ghost use Rattle.std.specs.Prelude.{◌≡◌, Option, option_map};
ghost use Rattle.jd_syntax.specs.Codes.{PlainCode, PlainKind};
ghost use Rattle.jd_syntax.specs.CodeViews.{code_view, kind_view};
ghost use Rattle.jd_term.specs.Formulas as formulas;
ghost use Rattle.jd_term.specs.Formulas.{Pairs, PlainFormula, formula_view, update_view};
ghost use Rattle.jd_term.specs.Terms.{PlainLoc, PlainTerm};
ghost use Rattle.jd_term.specs.TermViews.{loc_view, term_view};
ghost use Rattle.jd_tforms.specs.Reading as plain;
ghost use Rattle.jd_tread.specs.FormulaMakers as makers;
ghost use Rattle.jd_tread.specs.FormulaMakers.{boxed_view};
ghost use Rattle.jd_tcode.specs.Pairing.{Gives};

use jd_base::Sort;
use jd_syntax::{Code, Kind};
use jd_tcode::{Part, both_there, three_there};
use jd_term::{Formula, Loc, Modality, Term, Update, boxed_formula};
use jd_tforms::FormulaHead;
use std::alloc::Global;

/// A formula that is a part.
pub(crate) type Inside = Part<Box<Formula>>;

pub(crate) fn boxed(alloc: Global, part: Part<Formula>) -> Inside
    ensures { (p : Option PlainFormula) → Gives formula_view part p → Gives boxed_view result p }
{
    match part? {
        None => Ok(None),
        Some(formula) => Ok(Some(boxed_formula(alloc, formula)?)),
    }
}

// `(not a)`
pub(crate) fn denied(a: Inside) -> Part<Formula>
    ensures { (p : Option PlainFormula) → Gives boxed_view a p → Gives formula_view result (option_map formulas.Not p) }
{
    match a? {
        None => Ok(None),
        Some(a) => Ok(Some(Formula::Not(a))),
    }
}

// `(and a b)` and the like; of a head that has not two formulas, `(iff a b)`.
pub(crate) fn two_formulas(head: FormulaHead, a: Inside, b: Inside) -> Part<Formula>
    ensures { (p : Option PlainFormula) (q : Option PlainFormula) → Gives boxed_view a p → Gives boxed_view b q → Gives formula_view result (plain.both (makers.two_formulas head) p q) }
{
    match both_there(a, b)? {
        None => Ok(None),
        Some((a, b)) => match head {
            FormulaHead::And => Ok(Some(Formula::And(a, b))),
            FormulaHead::Or => Ok(Some(Formula::Or(a, b))),
            FormulaHead::Implies => Ok(Some(Formula::Implies(a, b))),
            _ => Ok(Some(Formula::Iff(a, b))),
        },
    }
}

// `(forall s a)`; of another head, `(exists s a)`.
pub(crate) fn bound(head: FormulaHead, sort: Sort, a: Inside) -> Part<Formula>
    ensures { (p : Option PlainFormula) → Gives boxed_view a p → Gives formula_view result (option_map (makers.bound head sort) p) }
{
    match a? {
        None => Ok(None),
        Some(a) => match head {
            FormulaHead::Forall => Ok(Some(Formula::Forall(sort, a))),
            _ => Ok(Some(Formula::Exists(sort, a))),
        },
    }
}

// `(upd (..) a)`
pub(crate) fn updated(update: Part<Update>, a: Inside) -> Part<Formula>
    ensures { (p : Option Pairs) (q : Option PlainFormula) → Gives update_view update p → Gives boxed_view a q → Gives formula_view result (plain.both formulas.Updated p q) }
{
    match both_there(update, a)? {
        None => Ok(None),
        Some((update, a)) => Ok(Some(Formula::Updated(update, a))),
    }
}

// `(box c a)` and `(dia c a)`
pub(crate) fn modal(modality: Modality, code: Part<Code>, a: Inside) -> Part<Formula>
    ensures { (p : Option PlainCode) (q : Option PlainFormula) → Gives code_view code p → Gives boxed_view a q → Gives formula_view result (plain.both (formulas.Modal modality) p q) }
{
    match both_there(code, a)? {
        None => Ok(None),
        Some((code, a)) => Ok(Some(Formula::Modal(modality, code, a))),
    }
}

// `(eq a b)` and the like; of a head that has not two terms, `(inv a b)`.
pub(crate) fn two_terms(head: FormulaHead, a: Part<Term>, b: Part<Term>) -> Part<Formula>
    ensures { (p : Option PlainTerm) (q : Option PlainTerm) → Gives term_view a p → Gives term_view b q → Gives formula_view result (plain.both (makers.two_terms head) p q) }
{
    match both_there(a, b)? {
        None => Ok(None),
        Some((a, b)) => match head {
            FormulaHead::Equal => Ok(Some(Formula::Equal(a, b))),
            FormulaHead::Less => Ok(Some(Formula::Less(a, b))),
            FormulaHead::LessOrEqual => Ok(Some(Formula::LessOrEqual(a, b))),
            _ => Ok(Some(Formula::Invariant(a, b))),
        },
    }
}

// `(inInt a)`; of another head, `(wf a)`.
pub(crate) fn one_term(head: FormulaHead, a: Part<Term>) -> Part<Formula>
    ensures { (p : Option PlainTerm) → Gives term_view a p → Gives formula_view result (option_map (makers.one_term head) p) }
{
    match a? {
        None => Ok(None),
        Some(a) => match head {
            FormulaHead::InInt => Ok(Some(Formula::InInt(a))),
            _ => Ok(Some(Formula::WellFormed(a))),
        },
    }
}

// `(inst k a)`; of another head, `(exact k a)`.
pub(crate) fn of_kind(head: FormulaHead, kind: Option<Kind>, a: Part<Term>) -> Part<Formula>
    ensures { (p : Option PlainKind) (q : Option PlainTerm) → option_map kind_view kind ≡ p → Gives term_view a q → Gives formula_view result (plain.both (makers.of_kind head) p q) }
{
    match both_there(Ok(kind), a)? {
        None => Ok(None),
        Some((kind, a)) => match head {
            FormulaHead::Instance => Ok(Some(Formula::IsInstance(kind, a))),
            _ => Ok(Some(Formula::IsExactInstance(kind, a))),
        },
    }
}

// `(in a b l)`
pub(crate) fn member(a: Part<Term>, b: Part<Term>, l: Part<Loc>) -> Part<Formula>
    ensures { (p : Option PlainTerm) (q : Option PlainTerm) (r : Option PlainLoc) → Gives term_view a p → Gives term_view b q → Gives loc_view l r → Gives formula_view result (plain.three formulas.InLocations p q r) }
{
    match three_there(a, b, l)? {
        None => Ok(None),
        Some((a, b, l)) => Ok(Some(Formula::InLocations(a, b, l))),
    }
}
