//! Copies of terms and formulas, and trees in boxes.

ghost use Rattle.jd_term.specs.Formulas.{formula_view, pair_view, update_view};
ghost use Rattle.jd_term.specs.Maps.{Anything, unchanged_leaves};
ghost use Rattle.jd_term.specs.TermViews.{loc_view, term_view};
ghost use Rattle.std.specs.Prelude.{◌≡◌, IfOk};

use crate::formula::{Elementary, Formula, Update};
use crate::makers::copy_leaf;
use crate::mapping::{Leaves, map_formula, map_loc, map_pairs, map_term};
use crate::term::{Loc, Term};
use jd_base::{NoMemory, both};
use std::alloc::Global;

#[derive(Clone, Copy)]
struct Unchanged;

impl Leaves for Unchanged {
    ghost leaves = { λ s. unchanged_leaves };

    ghost Fits = { λ s. Anything };

    fn leaf(&self, alloc: Global, t: &Term, _depth: u64) -> Result<Term, NoMemory> {
        copy_leaf(alloc, t)
    }

    fn below(&self, depth: u64) -> Result<u64, NoMemory> {
        Ok(depth)
    }
}

impl Term {
    /// A copy of the term.
    pub fn copy(&self, alloc: Global) -> Result<Term, NoMemory>
        ensures { IfOk result (λ t. term_view t ≡ term_view self.now) }
    {
        map_term(alloc, &Unchanged, self, 0)
    }
}

impl Loc {
    /// A copy of the location set.
    pub fn copy(&self, alloc: Global) -> Result<Loc, NoMemory>
        ensures { IfOk result (λ l. loc_view l ≡ loc_view self.now) }
    {
        map_loc(alloc, &Unchanged, self, 0)
    }
}

impl Elementary {
    /// A copy of the pair.
    pub fn copy(&self, alloc: Global) -> Result<Elementary, NoMemory>
        ensures { IfOk result (λ p. pair_view p ≡ pair_view self.now) }
    {
        let (variable, value) = both(self.variable.copy(alloc), self.value.copy(alloc))?;
        Ok(Elementary { variable, value })
    }
}

impl Update {
    /// A copy of the update.
    pub fn copy(&self, alloc: Global) -> Result<Update, NoMemory>
        ensures { IfOk result (λ u. update_view u ≡ update_view self.now) }
    {
        map_pairs(alloc, &Unchanged, &self.pairs, 0)
    }
}

impl Formula {
    /// A copy of the formula.
    pub fn copy(&self, alloc: Global) -> Result<Formula, NoMemory>
        ensures { IfOk result (λ f. formula_view f ≡ formula_view self.now) }
    {
        map_formula(alloc, &Unchanged, self, 0)
    }
}

/// A copy of the term.
pub fn copy_term(alloc: Global, t: &Term) -> Result<Term, NoMemory>
    ensures { IfOk result (λ u. term_view u ≡ term_view t.now) }
{
    t.copy(alloc)
}

/// A copy of the formula.
pub fn copy(alloc: Global, f: &Formula) -> Result<Formula, NoMemory>
    ensures { IfOk result (λ g. formula_view g ≡ formula_view f.now) }
{
    f.copy(alloc)
}

/// The term in a box.
pub fn boxed_term(alloc: Global, t: Term) -> Result<Box<Term>, NoMemory>
    ensures { IfOk result (λ b. b.value ≡ t) }
{
    Ok(Box::new(alloc, t)?)
}

/// The location set in a box.
pub fn boxed_loc(alloc: Global, l: Loc) -> Result<Box<Loc>, NoMemory>
    ensures { IfOk result (λ b. b.value ≡ l) }
{
    Ok(Box::new(alloc, l)?)
}

/// The formula in a box.
pub fn boxed_formula(alloc: Global, f: Formula) -> Result<Box<Formula>, NoMemory>
    ensures { IfOk result (λ b. b.value ≡ f) }
{
    Ok(Box::new(alloc, f)?)
}
