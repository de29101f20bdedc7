//! The size and the depth of terms and formulas.

ghost use Rattle.jd_term.specs.Capped.{capped_levels, capped_trees};
ghost use Rattle.jd_term.specs.Formulas.{formula_view};
ghost use Rattle.jd_term.specs.FormulaSizes.{formula_depth, formula_size};
ghost use Rattle.jd_term.specs.TermSizes.{term_depth, term_size};
ghost use Rattle.jd_term.specs.TermViews.{term_view};
ghost use Rattle.std.specs.Prelude.{◌≡◌, ◌-◌, ◌^◌, min};

use crate::folding::{Gather, fold_formula, fold_term};
use crate::formula::Formula;
use crate::term::{Loc, Term};
use jd_syntax::{Code, VarId};

#[derive(Clone, Copy)]
struct Trees;

impl Gather for Trees {
    type Out = u64;

    ghost gathers = { λ s. capped_trees };

    fn none(&self) -> u64 {
        0
    }

    fn join(&self, a: u64, b: u64) -> u64 {
        a.saturating_add(b)
    }

    fn term(&self, _t: &Term, inside: u64) -> u64 {
        inside.saturating_add(1)
    }

    fn loc(&self, _l: &Loc, inside: u64) -> u64 {
        inside.saturating_add(1)
    }

    fn formula(&self, _f: &Formula, inside: u64) -> u64 {
        inside.saturating_add(1)
    }

    fn pair(&self, _x: &VarId, inside: u64) -> u64 {
        inside
    }

    fn code(&self, c: &Code) -> u64 {
        c.size()
    }
}

/// How many terms and location sets there are, at most `u64::MAX`.
pub fn size_term(t: &Term) -> u64
    ensures { result ≡ min (term_size (term_view t.now)) (2 ^ 64 - 1) }
{
    fold_term(&Trees, t)
}

/// How many formulas, terms, location sets, statements and expressions there are, at most `u64::MAX`.
pub fn size(f: &Formula) -> u64
    ensures { result ≡ min (formula_size (formula_view f.now)) (2 ^ 64 - 1) }
{
    fold_formula(&Trees, f)
}

#[derive(Clone, Copy)]
struct Levels;

impl Gather for Levels {
    type Out = u64;

    ghost gathers = { λ s. capped_levels };

    fn none(&self) -> u64 {
        0
    }

    fn join(&self, a: u64, b: u64) -> u64 {
        a.max(b)
    }

    fn term(&self, _t: &Term, inside: u64) -> u64 {
        inside.saturating_add(1)
    }

    fn loc(&self, _l: &Loc, inside: u64) -> u64 {
        inside.saturating_add(1)
    }

    fn formula(&self, _f: &Formula, inside: u64) -> u64 {
        inside.saturating_add(1)
    }

    fn pair(&self, _x: &VarId, inside: u64) -> u64 {
        inside
    }

    fn code(&self, c: &Code) -> u64 {
        c.depth()
    }
}

/// How deep terms and location sets stand in one another, at most `u64::MAX`; 1 where none is inside.
pub fn depth_term(t: &Term) -> u64
    ensures { result ≡ min (term_depth (term_view t.now)) (2 ^ 64 - 1) }
{
    fold_term(&Levels, t)
}

/// How deep formulas, terms, location sets, statements and expressions stand in one another, at most `u64::MAX`; 1 where none is inside.
pub fn depth(f: &Formula) -> u64
    ensures { result ≡ min (formula_depth (formula_view f.now)) (2 ^ 64 - 1) }
{
    fold_formula(&Levels, f)
}
