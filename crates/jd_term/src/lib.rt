//! Terms, locations, updates and formulas of Java Dynamic Logic.
#![tactic(auto)]

mod boxes;
mod copies;
mod equality;
mod folding;
mod formula;
mod makers;
mod mapping;
mod occurrence;
mod renaming;
mod shifting;
mod sizes;
mod sorts;
mod substitution;
mod term;

pub use copies::{boxed_formula, boxed_loc, boxed_term, copy, copy_term};
pub use folding::{Gather, fold_formula, fold_loc, fold_pairs, fold_term};
pub use formula::{Elementary, Formula, Modality, Update};
pub use makers::{
    anon, arithmetic, copy_leaf, create, element_range, in_locations, modal, select, single, store,
    sum, union, updated, with_formula, with_formulas, with_object, with_one, with_term, with_terms,
};
pub use mapping::{Leaves, counted, map_formula, map_loc, map_pairs, map_term};
pub use occurrence::{
    is_same, is_same_constant, occurs_const, occurs_const_term, occurs_var, occurs_var_term,
};
pub use renaming::{rename, rename_loc, rename_term};
pub use shifting::{shift, shift_loc, shift_term};
pub use sizes::{depth, depth_term, size, size_term};
pub use sorts::sort_of;
pub use substitution::{subst, subst_term};
pub use term::{ArithmeticOp, ConstId, Loc, Term};
