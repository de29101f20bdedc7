//! Invariants in a heap and for an object.

ghost use Rattle.std.specs.Prelude.{◌≡◌, cond, option_map};
ghost use Rattle.jd_model.specs.SpecialNames.{receiver};
ghost use Rattle.jd_syntax.specs.CodeNames.{heap_name, same_name};
ghost use Rattle.jd_syntax.specs.Names.{var_view};
ghost use Rattle.jd_term.specs.Formulas.{InLocations, formula_view};
ghost use Rattle.jd_term.specs.Makers.{GivesFormula, GivesLoc, GivesTerm, with_term, with_terms};
ghost use Rattle.jd_term.specs.Maps.{Anything};
ghost use Rattle.jd_term.specs.Renamings.{rename, rename_leaves, rename_loc, rename_term};
ghost use Rattle.jd_term.specs.TermViews.{const_view, loc_view, term_view};
ghost use Rattle.jd_term.specs.Terms.{Constant, ProgramVariable};
ghost use Rattle.jd_tforms.specs.Naming.{named};
ghost use Rattle.jd_told_tables.specs.Lent.{term_or};
ghost use Rattle.jd_told_tables.specs.Places.{renaming_at};

use jd_base::{NoMemory, Sort};
use jd_syntax::VarId;
use jd_taclet_matching::is_sort;
use jd_term::{
    ConstId, Formula, Leaves, Loc, Term, copy_leaf, in_locations, map_loc, map_term, with_formula,
    with_formulas, with_term, with_terms,
};
use jd_twords::is_word;
use std::alloc::Global;

/// The heap and the object that invariants are to speak of; nothing stands for `null`.
#[derive(Clone, Copy)]
pub(crate) struct Place<'a> {
    /// The heap.
    pub heap: Option<&'a Term>,
    /// The object.
    pub object: Option<&'a Term>,
}

/// A copy of the term; nothing stands for `null`.
pub fn copied(alloc: Global, t: Option<&Term>) -> Result<Term, NoMemory>
    ensures { GivesTerm result (term_or (option_map (λ t. term_view t.now) t.entry)) }
{
    match t {
        Some(t) => t.copy(alloc),
        None => Ok(Term::NullTerm),
    }
}

fn is_variable(x: &VarId, text: &[u8], sort: Sort) -> bool
    ensures { result ≡ same_name (var_view x.now) (named text.now sort) }
{
    is_word(&x.name, text) && is_sort(x.sort, sort)
}

fn is_constant(c: &ConstId, text: &[u8], sort: Sort) -> bool
    ensures { result ≡ same_name (const_view c.now) (named text.now sort) }
{
    is_word(&c.name, text) && is_sort(c.sort, sort)
}

// The heap for `@heap`, and another variable as it is.
fn variable_at(alloc: Global, x: &VarId, heap: Option<&Term>) -> Result<Term, NoMemory>
    ensures { GivesTerm result (cond (same_name (var_view x.now) heap_name) (term_or (option_map (λ t. term_view t.now) heap.entry)) (ProgramVariable (var_view x.now))) }
{
    if is_variable(x, b"@heap", Sort::Heap) {
        return copied(alloc, heap);
    }
    Ok(Term::ProgramVariable(x.copy(alloc)?))
}

// The object for `#r_this`, and another constant as it is.
fn constant_at(alloc: Global, c: &ConstId, object: Option<&Term>) -> Result<Term, NoMemory>
    ensures { GivesTerm result (cond (same_name (const_view c.now) receiver) (term_or (option_map (λ t. term_view t.now) object.entry)) (Constant (const_view c.now))) }
{
    if is_constant(c, b"#r_this", Sort::Ref) {
        return copied(alloc, object);
    }
    Ok(Term::Constant(c.copy(alloc)?))
}

impl<'a> Leaves for Place<'a> {
    ghost leaves = { λ s. rename_leaves (renaming_at s) };

    ghost Fits = { λ s. Anything };

    fn leaf(&self, alloc: Global, t: &Term, _depth: u64) -> Result<Term, NoMemory> {
        match t {
            Term::ProgramVariable(x) => variable_at(alloc, x, self.heap),
            Term::Constant(c) => constant_at(alloc, c, self.object),
            _ => copy_leaf(alloc, t),
        }
    }

    fn below(&self, depth: u64) -> Result<u64, NoMemory> {
        Ok(depth)
    }
}

fn renamed_term(alloc: Global, t: &Term, at: &Place<'_>) -> Result<Term, NoMemory>
    ensures { GivesTerm result (rename_term (renaming_at at.now) (term_view t.now)) }
{
    map_term(alloc, at, t, 0)
}

fn renamed_loc(alloc: Global, l: &Loc, at: &Place<'_>) -> Result<Loc, NoMemory>
    ensures { GivesLoc result (rename_loc (renaming_at at.now) (loc_view l.now)) }
{
    map_loc(alloc, at, l, 0)
}

// A formula of two terms: what they take of the stack is not there while formulas inside are made.
#[inline(never)]
fn renamed_two(
    alloc: Global,
    like: &Formula,
    a: &Term,
    b: &Term,
    at: &Place<'_>,
) -> Result<Formula, NoMemory>
    ensures { GivesFormula result (with_terms (formula_view like.now) (rename_term (renaming_at at.now) (term_view a.now)) (rename_term (renaming_at at.now) (term_view b.now))) }
{
    with_terms(like, renamed_term(alloc, a, at), renamed_term(alloc, b, at))
}

#[inline(never)]
fn renamed_one(alloc: Global, like: &Formula, a: &Term, at: &Place<'_>) -> Result<Formula, NoMemory>
    ensures { GivesFormula result (with_term (formula_view like.now) (rename_term (renaming_at at.now) (term_view a.now))) }
{
    with_term(like, renamed_term(alloc, a, at))
}

#[inline(never)]
fn renamed_in(
    alloc: Global,
    a: &Term,
    b: &Term,
    l: &Loc,
    at: &Place<'_>,
) -> Result<Formula, NoMemory>
    ensures { GivesFormula result (InLocations (rename_term (renaming_at at.now) (term_view a.now)) (rename_term (renaming_at at.now) (term_view b.now)) (rename_loc (renaming_at at.now) (loc_view l.now))) }
{
    in_locations(
        renamed_term(alloc, a, at),
        renamed_term(alloc, b, at),
        renamed_loc(alloc, l, at),
    )
}

/// The formula with the heap for `@heap` and the object for `#r_this`; in updates and behind code all stays.
pub(crate) fn renamed(alloc: Global, f: &Formula, at: &Place<'_>) -> Result<Formula, NoMemory>
    ensures { GivesFormula result (rename (renaming_at at.now) (formula_view f.now)) }
{
    match f {
        Formula::TrueFormula => Ok(Formula::TrueFormula),
        Formula::FalseFormula => Ok(Formula::FalseFormula),
        Formula::Not(a) | Formula::Forall(_, a) | Formula::Exists(_, a) => with_formula(
            alloc,
            f,
            renamed(alloc, a, at),
        ),
        Formula::And(a, b) | Formula::Or(a, b) | Formula::Implies(a, b) | Formula::Iff(a, b) =>
            with_formulas(alloc, f, renamed(alloc, a, at), renamed(alloc, b, at)),
        Formula::Equal(a, b)
        | Formula::Less(a, b)
        | Formula::LessOrEqual(a, b)
        | Formula::Invariant(a, b) => renamed_two(alloc, f, a, b, at),
        Formula::InInt(a)
        | Formula::WellFormed(a)
        | Formula::IsInstance(_, a)
        | Formula::IsExactInstance(_, a) => renamed_one(alloc, f, a, at),
        Formula::InLocations(a, b, l) => renamed_in(alloc, a, b, l, at),
        Formula::Updated(_, _) | Formula::Modal(_, _, _) => f.copy(alloc),
    }
}
