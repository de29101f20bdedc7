//! Instances of patterns: the trees that they mean where the variables stand for what was found.
#![tactic(auto)]

mod bound;
mod choice;
mod expressions;
mod filling;
mod formulas;
mod heads;
mod laws;
mod makers;
mod parts;
mod shapes;
mod statements;
mod terms;

pub use bound::{PartKind, bound_to};
pub use choice::{Chosen, MachineClasses};
pub use expressions::instance_expr;
pub use formulas::instance_formula;
pub use heads::{
    instance_class, instance_kind, instance_modality, instance_name, instance_result, instance_sort,
};
pub use laws::instances_are_alike;
pub use parts::{as_field, as_kind, as_literal, as_name, as_sort};
pub use statements::{instance_code, instance_stmt};
pub use terms::{instance_loc, instance_term};
