//! Constants and program variables replaced by terms.

ghost use Rattle.jd_term.specs.Formulas.{formula_view};
ghost use Rattle.jd_term.specs.Makers.{GivesTerm};
ghost use Rattle.jd_term.specs.Maps.{Anything};
ghost use Rattle.jd_term.specs.Renamings.{FirstOrder, IsRenaming, both_views, put_for, rename, rename_leaves, rename_loc, rename_term, renaming, same_symbol};
ghost use Rattle.jd_term.specs.TermViews.{loc_view, term_view};
ghost use Rattle.std.specs.Prelude.{◌≡◌, IfOk, map};

use crate::formula::Formula;
use crate::makers::copy_leaf;
use crate::mapping::{Leaves, map_formula, map_loc, map_term};
use crate::occurrence::{is_same, is_same_constant};
use crate::term::{Loc, Term};
use jd_base::NoMemory;
use std::alloc::Global;

fn is_same_symbol(s: &Term, t: &Term) -> bool
    ensures { result ≡ same_symbol (term_view s.now) (term_view t.now) }
{
    match (s, t) {
        (Term::Constant(c), Term::Constant(d)) => is_same_constant(c, d),
        (Term::ProgramVariable(x), Term::ProgramVariable(y)) => is_same(x, y),
        _ => false,
    }
}

#[tactic(auto, using(jd_syntax::proofs::Lists::rest))]
fn put_for<'a>(t: &'a Term, pairs: &'a [(Term, Term)]) -> &'a Term
    ensures { term_view result.now ≡ put_for (map both_views pairs.entry.now) (term_view t.entry.now) }
{
    for p in pairs {
        if is_same_symbol(&p.0, t) {
            return &p.1;
        }
    }
    t
}

fn renamed_symbol(alloc: Global, t: &Term, pairs: &[(Term, Term)]) -> Result<Term, NoMemory>
    ensures { GivesTerm result (put_for (map both_views pairs.now) (term_view t.now)) }
{
    put_for(t, pairs).copy(alloc)
}

#[derive(Clone, Copy)]
struct Renamed<'a> {
    pairs: &'a [(Term, Term)],
}

impl<'a> Leaves for Renamed<'a> {
    ghost leaves = { λ s. rename_leaves (renaming (map both_views s.pairs.now)) };

    ghost Fits = { λ s. Anything };

    fn leaf(&self, alloc: Global, t: &Term, _depth: u64) -> Result<Term, NoMemory> {
        match t {
            Term::ProgramVariable(_) | Term::Constant(_) => renamed_symbol(alloc, t, self.pairs),
            _ => copy_leaf(alloc, t),
        }
    }

    fn below(&self, depth: u64) -> Result<u64, NoMemory> {
        Ok(depth)
    }
}

/// The term with the second term of a pair put for each occurrence of the first, all pairs at once.
///
/// The first terms are different constants or program variables, and each second term has the sort of its first and no bound variable.
/// The error is `NoMemory` alone.
pub fn rename_term(alloc: Global, t: &Term, pairs: &[(Term, Term)]) -> Result<Term, NoMemory>
    requires { IsRenaming (map both_views pairs.now) }
    ensures { IfOk result (λ u. term_view u ≡ rename_term (renaming (map both_views pairs.now)) (term_view t.now)) }
{
    map_term(alloc, &Renamed { pairs }, t, 0)
}

/// The location set with its names replaced, as by [`rename_term`].
pub fn rename_loc(alloc: Global, l: &Loc, pairs: &[(Term, Term)]) -> Result<Loc, NoMemory>
    requires { IsRenaming (map both_views pairs.now) }
    ensures { IfOk result (λ m. loc_view m ≡ rename_loc (renaming (map both_views pairs.now)) (loc_view l.now)) }
{
    map_loc(alloc, &Renamed { pairs }, l, 0)
}

/// The formula, which has no update and no modality, with its names replaced, as by [`rename_term`].
pub fn rename(alloc: Global, f: &Formula, pairs: &[(Term, Term)]) -> Result<Formula, NoMemory>
    requires pairs { IsRenaming (map both_views pairs.now) }
    requires formula { FirstOrder (formula_view f.now) }
    ensures { IfOk result (λ g. formula_view g ≡ rename (renaming (map both_views pairs.now)) (formula_view f.now)) }
{
    map_formula(alloc, &Renamed { pairs }, f, 0)
}
