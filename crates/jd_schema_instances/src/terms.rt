//! Instances of patterns of terms and location sets.

ghost use Rattle.std.specs.Prelude.{IfOk, option_map};
ghost use Rattle.jd_code_makers.specs.Makers.{GivesName};
ghost use Rattle.jd_patterns.specs.Chosen.{as_locations, as_term};
ghost use Rattle.jd_patterns.specs.Instances.{of_loc, of_term};
ghost use Rattle.jd_schema_instances.specs.Fitting.{HasLocInstance, HasTermInstance, TermPutFits};
ghost use Rattle.jd_schema_instances.specs.Forms.{with_loc_head, with_term_head};
ghost use Rattle.jd_schema_instances.specs.Choosing.{instance_by, program_by};
ghost use Rattle.jd_schema_matching.specs.PartViews.{part_view};
ghost use Rattle.jd_schema_trees.specs.TermViews.{loc_pattern, term_pattern};
ghost use Rattle.jd_syntax.specs.Names.{Name};
ghost use Rattle.jd_term.specs.Makers.{GivesBoxedTerm, GivesLoc, GivesTerm};
ghost use Rattle.jd_term.specs.Shifts.{LocFits, TermFits, loc_shift, term_shift};
ghost use Rattle.jd_term.specs.Substitutions.{term_subst};
ghost use Rattle.jd_term.specs.Terms.{Constant, PlainTerm, ProgramVariable};
ghost use Rattle.jd_term.specs.TermViews.{term_view};

use crate::bound::{PartKind, bound_to};
use crate::choice::Chosen;
use crate::heads::{instance_name, instance_sort};
use crate::parts::{as_field, as_literal, as_locations, as_simple_term, as_term};
use jd_base::NoMemory;
use jd_schema_matching::PartRef;
use jd_schema_trees::{SLoc, STerm};
use jd_syntax::VarId;
use jd_term::{
    ConstId, Loc, Term, anon, arithmetic, create, element_range, select, shift_loc, shift_term,
    single, store, subst_term, sum, union,
};
use std::alloc::Global;

// The term below one more binder.
fn lifted(alloc: Global, x: Option<PartRef<'_>>) -> Result<Term, NoMemory>
    requires { TermFits 0 1 (as_term (option_map part_view x)) }
    ensures { GivesTerm result (term_shift 0 1 (as_term (option_map part_view x.entry))) }
{
    match x {
        Some(PartRef::Term(t)) => shift_term(alloc, t, 0, 1),
        _ => Ok(Term::NullTerm),
    }
}

fn lifted_loc(alloc: Global, x: Option<PartRef<'_>>) -> Result<Loc, NoMemory>
    requires { LocFits 0 1 (as_locations (option_map part_view x)) }
    ensures { GivesLoc result (loc_shift 0 1 (as_locations (option_map part_view x.entry))) }
{
    match x {
        Some(PartRef::Locations(l)) => shift_loc(alloc, l, 0, 1),
        _ => Ok(Loc::NoLocations),
    }
}

// The term with another for the index 0.
fn put_in(alloc: Global, t: &Term, x: Option<PartRef<'_>>) -> Result<Term, NoMemory>
    requires { TermPutFits (term_view t.now) (as_term (option_map part_view x)) }
    ensures { GivesTerm result (term_subst 0 0 (term_view t.now) (as_term (option_map part_view x.entry))) }
{
    match x {
        Some(PartRef::Term(s)) => subst_term(alloc, s, 0, t),
        _ => Ok(Term::NullTerm),
    }
}

fn put(alloc: Global, t: Result<Term, NoMemory>, x: Option<PartRef<'_>>) -> Result<Term, NoMemory>
    requires { IfOk t (λ u. TermPutFits (term_view u) (as_term (option_map part_view x))) }
    ensures { (y : PlainTerm) → GivesTerm t y → GivesTerm result (term_subst 0 0 y (as_term (option_map part_view x.entry))) }
{
    let t = t?;
    put_in(alloc, &t, x)
}

fn variable(x: Result<VarId, NoMemory>) -> Result<Term, NoMemory>
    ensures { (n : Name) → GivesName x n → GivesTerm result (ProgramVariable n) }
{
    Ok(Term::ProgramVariable(x?))
}

fn constant(x: Result<VarId, NoMemory>) -> Result<Term, NoMemory>
    ensures { (n : Name) → GivesName x n → GivesTerm result (Constant n) }
{
    let x = x?;
    Ok(Term::Constant(ConstId {
        name: x.name,
        sort: x.sort,
    }))
}

fn boxed(alloc: Global, t: Result<Term, NoMemory>) -> Result<Box<Term>, NoMemory>
    ensures { (x : PlainTerm) → GivesTerm t x → GivesBoxedTerm result x }
{
    Ok(Box::new(alloc, t?)?)
}

// The form of the pattern with this part; of a form that has not one part, `(idx a)`.
fn with_head(like: &STerm, a: Result<Box<Term>, NoMemory>) -> Result<Term, NoMemory>
    ensures { (x : PlainTerm) → GivesBoxedTerm a x → GivesTerm result (with_term_head (term_pattern like.now) x) }
{
    let a = a?;
    match like {
        STerm::Negation(_) => Ok(Term::Negation(a)),
        STerm::Wrap(_) => Ok(Term::Wrap(a)),
        STerm::Length(_) => Ok(Term::Length(a)),
        _ => Ok(Term::ElementField(a)),
    }
}

// The form of the pattern with this object; of a form that has none, `(arrall a)`.
fn with_object(like: &SLoc, a: Result<Box<Term>, NoMemory>) -> Result<Loc, NoMemory>
    ensures { (x : PlainTerm) → GivesBoxedTerm a x → GivesLoc result (with_loc_head (loc_pattern like.now) x) }
{
    let a = a?;
    match like {
        SLoc::ObjectFields(_) => Ok(Loc::ObjectFields(a)),
        _ => Ok(Loc::ArrayElements(a)),
    }
}

/// The term that the pattern means. The error is `NoMemory` alone.
#[cycle(instance_term)]
pub fn instance_term(alloc: Global, p: &STerm, by: &Chosen<'_, '_>) -> Result<Term, NoMemory>
    requires { HasTermInstance (program_by by.now) (instance_by by.now) (term_pattern p.now) }
    ensures { GivesTerm result (of_term (program_by by.now) (instance_by by.now) (term_pattern p.now)) }
{
    match p {
        STerm::Any(n) | STerm::OfSort(_, n) => as_term(alloc, bound_to(by, PartKind::Term, n)),
        STerm::Literal(n) => Ok(Term::Number(as_literal(bound_to(by, PartKind::Literal, n)))),
        STerm::Field(n) => Ok(Term::NamedField(as_field(bound_to(by, PartKind::Field, n)))),
        STerm::Put(n, a) => put(
            alloc,
            instance_term(alloc, a, by),
            bound_to(by, PartKind::Term, n),
        ),
        STerm::Lifted(n) => lifted(alloc, bound_to(by, PartKind::Term, n)),
        STerm::OfSimple(n) => as_simple_term(alloc, bound_to(by, PartKind::Simple, n)),
        STerm::ProgramVariable(x) => variable(instance_name(alloc, x, by)),
        STerm::Constant(x) => constant(instance_name(alloc, x, by)),
        STerm::Number(z) => Ok(Term::Number(*z)),
        STerm::Boolean(b) => Ok(Term::Boolean(*b)),
        STerm::NullTerm => Ok(Term::NullTerm),
        STerm::Bound(k, s) => Ok(Term::Bound(*k, *s)),
        STerm::CreatedField => Ok(Term::CreatedField),
        STerm::Negation(a) | STerm::Wrap(a) | STerm::Length(a) | STerm::ElementField(a) =>
            with_head(p, boxed(alloc, instance_term(alloc, a, by))),
        STerm::Arithmetic(op, a, b) => arithmetic(
            alloc,
            *op,
            instance_term(alloc, a, by),
            instance_term(alloc, b, by),
        ),
        STerm::Select(s, a, b, c) => select(
            alloc,
            instance_sort(s, by),
            instance_term(alloc, a, by),
            instance_term(alloc, b, by),
            instance_term(alloc, c, by),
        ),
        STerm::Sum(a, b, c) => sum(
            alloc,
            instance_term(alloc, a, by),
            instance_term(alloc, b, by),
            instance_term(alloc, c, by),
        ),
        STerm::Store(a, b, c, d) => store(
            alloc,
            instance_term(alloc, a, by),
            instance_term(alloc, b, by),
            instance_term(alloc, c, by),
            instance_term(alloc, d, by),
        ),
        STerm::Create(a, b) => create(
            alloc,
            instance_term(alloc, a, by),
            instance_term(alloc, b, by),
        ),
        STerm::Anon(a, l, b) => anon(
            alloc,
            instance_term(alloc, a, by),
            instance_loc(alloc, l, by),
            instance_term(alloc, b, by),
        ),
    }
}

/// The location set that the pattern means. The error is `NoMemory` alone.
#[cycle(instance_term)]
pub fn instance_loc(alloc: Global, p: &SLoc, by: &Chosen<'_, '_>) -> Result<Loc, NoMemory>
    requires { HasLocInstance (program_by by.now) (instance_by by.now) (loc_pattern p.now) }
    ensures { GivesLoc result (of_loc (program_by by.now) (instance_by by.now) (loc_pattern p.now)) }
{
    match p {
        SLoc::Any(n) => as_locations(alloc, bound_to(by, PartKind::Locations, n)),
        SLoc::Lifted(n) => lifted_loc(alloc, bound_to(by, PartKind::Locations, n)),
        SLoc::NoLocations => Ok(Loc::NoLocations),
        SLoc::AllLocations => Ok(Loc::AllLocations),
        SLoc::Single(a, b) => single(
            alloc,
            instance_term(alloc, a, by),
            instance_term(alloc, b, by),
        ),
        SLoc::ObjectFields(a) | SLoc::ArrayElements(a) => with_object(
            p,
            boxed(alloc, instance_term(alloc, a, by)),
        ),
        SLoc::ElementRange(a, b, c) => element_range(
            alloc,
            instance_term(alloc, a, by),
            instance_term(alloc, b, by),
            instance_term(alloc, c, by),
        ),
        SLoc::Union(l, m) => union(
            alloc,
            instance_loc(alloc, l, by),
            instance_loc(alloc, m, by),
        ),
    }
}
