//! Whether terms, formulas and code have the sorts that their places ask for, over what names stand for.
#![tactic(auto)]

mod code;
mod formulas;
mod names;
mod returns;
mod sorts;
mod terms;

pub use code::{expr_sort, is_sorted_code, is_sorted_expr, is_sorted_stmt};
pub use formulas::is_sorted_formula;
pub use names::NameSorts;
pub use returns::{Returns, returns_of};
pub use terms::is_of;
