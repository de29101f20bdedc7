//! The shift of the variables that binders outside bind.

ghost use Rattle.jd_term.specs.Formulas.{formula_view};
ghost use Rattle.jd_term.specs.Shifts.{LeafFits, LocFits, ShiftFits, TermFits, formula_shift, loc_shift, shift_leaves, term_shift};
ghost use Rattle.jd_term.specs.TermViews.{loc_view, term_view};
ghost use Rattle.std.specs.Prelude.{◌≡◌, IfOk};

use crate::formula::Formula;
use crate::makers::copy_leaf;
use crate::mapping::{Leaves, counted, map_formula, map_loc, map_term};
use crate::term::{Loc, Term};
use jd_base::NoMemory;
use std::alloc::Global;

#[derive(Clone, Copy)]
struct Shifted {
    by: u32,
}

impl Leaves for Shifted {
    ghost leaves = { λ s. shift_leaves s.by };

    ghost Fits = { λ s. LeafFits s.by };

    fn leaf(&self, alloc: Global, t: &Term, depth: u64) -> Result<Term, NoMemory> {
        match t {
            Term::Bound(i, s) => Ok(Term::Bound(
                if (*i as u64) < depth {
                    *i
                } else {
                    *i + self.by
                },
                *s,
            )),
            _ => copy_leaf(alloc, t),
        }
    }

    fn below(&self, depth: u64) -> Result<u64, NoMemory> {
        counted(depth)
    }
}

/// The term with `by` added to each index that reaches past `from` binders and those inside it.
///
/// Each index that it raises must fit 32 bits when raised, and nothing else must.
pub fn shift_term(alloc: Global, t: &Term, from: u32, by: u32) -> Result<Term, NoMemory>
    requires { TermFits from by (term_view t.now) }
    ensures { IfOk result (λ u. term_view u ≡ term_shift from by (term_view t.now)) }
{
    map_term(alloc, &Shifted { by }, t, from as u64)
}

/// The location set with its indices shifted, as by [`shift_term`].
pub fn shift_loc(alloc: Global, l: &Loc, from: u32, by: u32) -> Result<Loc, NoMemory>
    requires { LocFits from by (loc_view l.now) }
    ensures { IfOk result (λ m. loc_view m ≡ loc_shift from by (loc_view l.now)) }
{
    map_loc(alloc, &Shifted { by }, l, from as u64)
}

/// The formula with its indices shifted, as by [`shift_term`]; code has none.
pub fn shift(alloc: Global, f: &Formula, from: u32, by: u32) -> Result<Formula, NoMemory>
    requires { ShiftFits from by (formula_view f.now) }
    ensures { IfOk result (λ g. formula_view g ≡ formula_shift from by (formula_view f.now)) }
{
    map_formula(alloc, &Shifted { by }, f, from as u64)
}
