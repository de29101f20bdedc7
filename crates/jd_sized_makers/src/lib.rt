//! Makers of terms and formulas that count: each takes what was made of the parts, with their sizes, and gives the whole with its own. A
//! size is known where memory did not suffice too, so that a formula that is too large is known to be.
#![tactic(auto)]

mod formulas;
mod sizes;
mod terms;

pub use formulas::{
    Comparison, Connective, MadeFormula, bound, compared, connected, in_int, instance, not, truth,
    twice,
};
pub use terms::{
    MadeTerm, OnePart, arithmetic, boolean, bound_variable, copied, created_field, leaf,
    named_field, null, number, one_part, select, sum, twice_term, variable,
};
