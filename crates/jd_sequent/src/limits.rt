ghost use Rattle.std.specs.Prelude.{◌≡◌, ◌-◌, ◌^◌, ◌↔◌, IsTrue, map, sum_by, min};
ghost use Rattle.std.specs.List.{list_all};
ghost use Rattle.jd_term.specs.Formulas.{formula_view};
ghost use Rattle.jd_term.specs.FormulaSizes.{formula_size};
ghost use Rattle.jd_model.specs.Sequents.{sequent_view};
ghost use Rattle.jd_sequent.specs.Limits.{is_small_formula, IsWithinLimits};

use jd_model::Sequent;
use jd_term::{Formula, depth, size};

fn is_small(formula: &Formula) -> bool
    ensures { result ≡ is_small_formula (formula_view formula.now) }
{
    size(formula) <= 100_000 && depth(formula) <= 1_000
}

fn are_small(formulas: &[Formula]) -> bool
    ensures { result ≡ list_all is_small_formula (map formula_view formulas.now) }
{
    for formula in formulas {
        if !is_small(formula) {
            return false;
        }
    }
    true
}

// The same of formulas that have so many nodes together: few nodes need no look at each, as no formula is deeper than it is
// large.
fn are_small_of(formulas: &[Formula], nodes: u64) -> bool
    requires { nodes ≡ min (sum_by formula_size (map formula_view formulas.now)) (2 ^ 64 - 1) }
    ensures { result ≡ list_all is_small_formula (map formula_view formulas.now) }
{
    if nodes <= 1_000 {
        return true;
    }
    are_small(formulas)
}

fn nodes_in(formulas: &[Formula]) -> u64
    ensures { result ≡ min (sum_by formula_size (map formula_view formulas.now)) (2 ^ 64 - 1) }
{
    let mut nodes = 0u64;
    for formula in formulas {
        nodes = nodes.saturating_add(size(formula));
    }
    nodes
}

/// Whether a sequent is within the limits: at most 4,096 formulas and 1,000,000 nodes, each
/// formula of at most 100,000 nodes and at most 1,000 deep.
pub fn is_within_limits(sequent: &Sequent) -> bool
    ensures { IsTrue result ↔ IsWithinLimits (sequent_view sequent.now) }
{
    let count = sequent.left.len() + sequent.right.len();
    if count > 4_096 {
        return false;
    }
    let left = nodes_in(&sequent.left);
    let right = nodes_in(&sequent.right);
    left.saturating_add(right) <= 1_000_000
        && are_small_of(&sequent.left, left)
        && are_small_of(&sequent.right, right)
}
