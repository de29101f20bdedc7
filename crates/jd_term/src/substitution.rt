//! A term put for a bound variable.

ghost use Rattle.jd_term.specs.Formulas.{formula_view};
ghost use Rattle.jd_term.specs.Substitutions.{LeafSubstFits, SortsAgree, SubstFits, TermSortsAgree, TermSubstFits, formula_subst, subst_leaves, term_subst};
ghost use Rattle.jd_term.specs.Terms.{sort_of_term};
ghost use Rattle.jd_term.specs.TermViews.{term_view};
ghost use Rattle.std.specs.Prelude.{◌≡◌, IfOk};

use crate::formula::Formula;
use crate::makers::copy_leaf;
use crate::mapping::{Leaves, counted, map_formula, map_term};
use crate::shifting::shift_term;
use crate::term::Term;
use jd_base::NoMemory;
use std::alloc::Global;

// The term stands for the index, and so for the index raised by the binders above.
#[derive(Clone, Copy)]
struct Substituted<'a> {
    index: u32,
    term: &'a Term,
}

impl<'a> Leaves for Substituted<'a> {
    ghost leaves = { λ s. subst_leaves s.index (term_view s.term.now) };

    ghost Fits = { λ s. LeafSubstFits s.index (term_view s.term.now) };

    fn leaf(&self, alloc: Global, t: &Term, depth: u64) -> Result<Term, NoMemory> {
        match t {
            Term::Bound(k, s) => {
                let reaches = *k as u64;
                if reaches < depth || reaches - depth < self.index as u64 {
                    Ok(Term::Bound(*k, *s))
                } else if (self.index as u64) < reaches - depth {
                    Ok(Term::Bound(*k - 1, *s))
                } else {
                    shift_term(alloc, self.term, 0, depth as u32)
                }
            }
            _ => copy_leaf(alloc, t),
        }
    }

    fn below(&self, depth: u64) -> Result<u64, NoMemory> {
        counted(depth)
    }
}

/// The term `s` with `t` put for the bound variable `%index` (The KeY Book, 2.2.4): below n binders, for `%(index + n)` with the indices of
/// `t` raised by n. Higher indices fall by one.
///
/// The index has the sort of `t` wherever it stands, and the indices of `t`, raised by the binders above each place where it is put, fit `u32`.
/// The error is `NoMemory` alone.
pub fn subst_term(alloc: Global, s: &Term, index: u32, t: &Term) -> Result<Term, NoMemory>
    requires fits { TermSubstFits 0 index (term_view t.now) (term_view s.now) }
    requires agree { TermSortsAgree index (sort_of_term (term_view t.now)) (term_view s.now) }
    ensures { IfOk result (λ u. term_view u ≡ term_subst 0 index (term_view t.now) (term_view s.now)) }
{
    map_term(alloc, &Substituted { index, term: t }, s, 0)
}

/// The formula with `t` put for the bound variable `%index`, as by [`subst_term`] and under the same conditions; code has none.
/// The error is `NoMemory` alone.
pub fn subst(alloc: Global, f: &Formula, index: u32, t: &Term) -> Result<Formula, NoMemory>
    requires fits { SubstFits 0 index (term_view t.now) (formula_view f.now) }
    requires agree { SortsAgree index (sort_of_term (term_view t.now)) (formula_view f.now) }
    ensures { IfOk result (λ g. formula_view g ≡ formula_subst 0 index (term_view t.now) (formula_view f.now)) }
{
    map_formula(alloc, &Substituted { index, term: t }, f, 0)
}
