//! What the text that a step gives for a variable stands for.

ghost use Rattle.std.specs.Prelude.{◌≡◌, IfOk, None, Some, option_map};
ghost use Rattle.std.specs.Option.{option_and_then};
ghost use Rattle.jd_patterns.specs.Bindings.{TheFormula, TheLiteral, TheTerm};
ghost use Rattle.jd_patterns.specs.Chosen.{as_simple};
ghost use Rattle.jd_model.specs.SimpleExpressions.{term_of};
ghost use Rattle.jd_schema_instances.specs.Choosing.{instance_by, program_by};
ghost use Rattle.jd_schema_matching.specs.PartViews.{part_view};
ghost use Rattle.jd_schema_trees.specs.TacletViews.{asked_sort as asked_view, given_form};
ghost use Rattle.jd_syntax.specs.CodeNames.{same_sort};
ghost use Rattle.jd_syntax.specs.CodeViews.{expr_view};
ghost use Rattle.jd_syntax.specs.Names.{var_view};
ghost use Rattle.jd_syntax.specs.Sxs.{sx_view};
ghost use Rattle.jd_taclet_stages.specs.Stages.{answered_as, name_if, read_as, word_of};
ghost use Rattle.jd_taclets.specs.Taclets.{asked_sort};
ghost use Rattle.jd_term.specs.TermViews.{term_view};
ghost use Rattle.jd_term.specs.Terms.{sort_of_term};
ghost use Rattle.jd_tforms.specs.Answers.{formula_answer, term_answer};
ghost use Rattle.jd_tforms.specs.Naming.{constant_of, named, special_of};
ghost use Rattle.jd_tforms.specs.Shapes.{integer_of, wide};
ghost use Rattle.jd_tparse.specs.Names.{table_of};
ghost use Rattle.jd_taclet_matching.specs.Given.{form_or};
ghost use Rattle.jd_taclet_matching.specs.OwnedParts.{owned_part};
ghost use Rattle.jd_taclet_matching.specs.Words.{IsOfText, constant_sort, literal_in};

use crate::owned::OwnedPart;
use jd_base::{NoMemory, Sort, copy_bytes};
use jd_lists::discard;
use jd_schema_instances::{Chosen, PartKind, bound_to, instance_sort};
use jd_schema_matching::PartRef;
use jd_schema_trees::{AskedSort, GivenForm};
use jd_syntax::{CodeExpr, Sx, VarId};
use jd_term::Term;
use jd_tparse::{Names, TermRefusal, parse_formula, parse_term};
use jd_twords::{variable_told, word_term};
use std::alloc::Global;

/// Whether both are one sort.
pub fn is_sort(a: Sort, b: Sort) -> bool
    ensures { result ≡ same_sort a b }
{
    match (a, b) {
        (Sort::Int, Sort::Int) => true,
        (Sort::Bool, Sort::Bool) => true,
        (Sort::Ref, Sort::Ref) => true,
        (Sort::Heap, Sort::Heap) => true,
        (Sort::Field, Sort::Field) => true,
        _ => false,
    }
}

// The sort of a simple expression as a term.
fn simple_sort(e: &CodeExpr) -> Sort
    ensures { result ≡ sort_of_term (term_of (expr_view e.now)) }
{
    match e {
        CodeExpr::IntLiteral(_) => Sort::Int,
        CodeExpr::BoolLiteral(_) => Sort::Bool,
        CodeExpr::Variable(x) => x.sort,
        _ => Sort::Ref,
    }
}

// The same of the simple expression that a part is.
fn simple_part_sort(x: Option<PartRef<'_>>) -> Sort
    ensures { result ≡ sort_of_term (term_of (as_simple (option_map part_view x.entry))) }
{
    match x {
        Some(PartRef::Simple(e)) => simple_sort(e),
        _ => Sort::Ref,
    }
}

// The sort that is asked for.
fn sort_asked(asked: &AskedSort, by: &Chosen<'_, '_>) -> Sort
    ensures { result ≡ asked_sort (program_by by.now) (instance_by by.now) (asked_view asked.now) }
{
    match asked {
        AskedSort::Of(s) => instance_sort(s, by),
        AskedSort::OfSimple(n) => simple_part_sort(bound_to(by, PartKind::Simple, n)),
    }
}

// No part, where the text is why.
fn unread(e: TermRefusal) -> Result<Option<OwnedPart>, NoMemory>
    ensures { IfOk result (λ p. (option_map owned_part p ≡ None) × IsOfText e) }
{
    match e {
        TermRefusal::Syntax => Ok(None),
        TermRefusal::UnknownSymbol => Ok(None),
        TermRefusal::SortMismatch => Ok(None),
        TermRefusal::TooDeep => Ok(None),
        TermRefusal::NoMemory => Err(NoMemory),
    }
}

// The closed formula that the text is.
fn formula_given(alloc: Global, x: &Sx, names: &Names<'_>) -> Result<Option<OwnedPart>, NoMemory>
    ensures { IfOk result (λ p. option_map owned_part p ≡ answered_as TheFormula (formula_answer (table_of names.now) (sx_view x.now))) }
{
    match parse_formula(alloc, x, names) {
        Ok(a) => Ok(Some(OwnedPart::Formula(a))),
        Err(e) => unread(e),
    }
}

// The closed term of the sort that the text is.
fn term_given(
    alloc: Global,
    x: &Sx,
    sort: Sort,
    names: &Names<'_>,
) -> Result<Option<OwnedPart>, NoMemory>
    ensures { IfOk result (λ p. option_map owned_part p ≡ answered_as TheTerm (term_answer (table_of names.now) sort (sx_view x.now))) }
{
    match parse_term(alloc, x, sort, names) {
        Ok(t) => Ok(Some(OwnedPart::Term(t))),
        Err(e) => unread(e),
    }
}

// The number that the term is.
fn literal_in(t: &Term) -> Option<i128>
    ensures { result ≡ literal_in (term_view t.now) }
{
    match t {
        Term::Number(z) => Some(*z),
        _ => None,
    }
}

// The number that a word's term is.
fn word_literal(t: &Option<Term>) -> Option<OwnedPart>
    ensures { option_map owned_part result ≡ option_map TheLiteral (option_and_then literal_in (option_map term_view t.now)) }
{
    match t {
        Some(t) => match literal_in(t) {
            Some(z) => Some(OwnedPart::Literal(z)),
            None => None,
        },
        None => None,
    }
}

// The number that the text is.
fn number_given(alloc: Global, x: &Sx, names: &Names<'_>) -> Result<Option<OwnedPart>, NoMemory>
    ensures { IfOk result (λ p. option_map owned_part p ≡ option_and_then (λ v. option_and_then (λ z. Some (TheLiteral z)) (integer_of wide v)) (word_of (sx_view x.now))) }
{
    match x {
        Sx::Atom(word) => {
            let binders: [Sort; 0] = [];
            let term = word_term(alloc, names, &binders, word)?;
            Ok(word_literal(&term))
        }
        Sx::List(_) => Ok(None),
    }
}

// The sort of the constant that the term is.
fn constant_sort(t: &Term) -> Option<Sort>
    ensures { result ≡ constant_sort (term_view t.now) }
{
    match t {
        Term::Constant(c) => Some(c.sort),
        _ => None,
    }
}

// The sort of the constant that a word's term is.
fn word_constant(t: &Option<Term>) -> Option<Sort>
    ensures { result ≡ option_and_then constant_sort (option_map term_view t.now) }
{
    match t {
        Some(t) => constant_sort(t),
        None => None,
    }
}

// The name of the word with the sort that it tells, where it is the one that is asked for.
fn named_if(
    alloc: Global,
    word: &[u8],
    told: Option<Sort>,
    sort: Sort,
) -> Result<Option<OwnedPart>, NoMemory>
    ensures { IfOk result (λ p. option_map owned_part p ≡ option_and_then (λ c. name_if (same_sort c.sort sort) c) (option_map (named word.now) told)) }
{
    match told {
        None => Ok(None),
        Some(own) => {
            if is_sort(own, sort) {
                let name = copy_bytes(alloc, word)?;
                Ok(Some(OwnedPart::Name(VarId { name, sort: own })))
            } else {
                Ok(None)
            }
        }
    }
}

// The constant of the sort that the text is.
fn constant_given(
    alloc: Global,
    x: &Sx,
    sort: Sort,
    names: &Names<'_>,
) -> Result<Option<OwnedPart>, NoMemory>
    ensures { IfOk result (λ p. option_map owned_part p ≡ option_and_then (λ v. option_and_then (λ c. name_if (same_sort c.sort sort) c) (constant_of v)) (word_of (sx_view x.now))) }
{
    match x {
        Sx::Atom(word) => {
            let binders: [Sort; 0] = [];
            let term = word_term(alloc, names, &binders, word)?;
            named_if(alloc, word, word_constant(&term), sort)
        }
        Sx::List(_) => Ok(None),
    }
}

// The variable, where it has the sort.
fn kept_if(x: Option<VarId>, sort: Sort) -> Option<OwnedPart>
    ensures { option_map owned_part result ≡ option_and_then (λ c. name_if (same_sort c.sort sort) c) (option_map var_view x) }
{
    match x {
        None => None,
        Some(x) => {
            if is_sort(x.sort, sort) {
                Some(OwnedPart::Name(x))
            } else {
                discard(x);
                None
            }
        }
    }
}

// The program variable of the sort that the text is.
fn variable_given(alloc: Global, x: &Sx, sort: Sort) -> Result<Option<OwnedPart>, NoMemory>
    ensures { IfOk result (λ p. option_map owned_part p ≡ option_and_then (λ v. option_and_then (λ c. name_if (same_sort c.sort sort) c) (special_of v)) (word_of (sx_view x.now))) }
{
    match x {
        Sx::Atom(word) => Ok(kept_if(variable_told(alloc, word)?, sort)),
        Sx::List(_) => Ok(None),
    }
}

// What the text stands for where this form is asked for.
fn read_form(
    alloc: Global,
    form: &GivenForm,
    x: &Sx,
    names: &Names<'_>,
    by: &Chosen<'_, '_>,
) -> Result<Option<OwnedPart>, NoMemory>
    ensures { IfOk result (λ p. option_map owned_part p ≡ read_as (table_of names.now) (program_by by.now) (instance_by by.now) (given_form form.now) (sx_view x.now)) }
{
    match form {
        GivenForm::Formula => formula_given(alloc, x, names),
        GivenForm::Number => number_given(alloc, x, names),
        GivenForm::Term(s) => term_given(alloc, x, sort_asked(s, by), names),
        GivenForm::NewConstant(s) => constant_given(alloc, x, sort_asked(s, by), names),
        GivenForm::NewVariable(s) => variable_given(alloc, x, sort_asked(s, by)),
    }
}

/// What the text stands for where this form is asked for; nothing where it is none of the form. A form that no condition says is a formula.
pub(crate) fn read_as(
    alloc: Global,
    form: Option<&GivenForm>,
    x: &Sx,
    names: &Names<'_>,
    by: &Chosen<'_, '_>,
) -> Result<Option<OwnedPart>, NoMemory>
    ensures { IfOk result (λ p. option_map owned_part p ≡ read_as (table_of names.now) (program_by by.now) (instance_by by.now) (form_or (option_map (λ f. given_form f.now) form.entry)) (sx_view x.now)) }
{
    match form {
        None => formula_given(alloc, x, names),
        Some(form) => read_form(alloc, form, x, names, by),
    }
}
