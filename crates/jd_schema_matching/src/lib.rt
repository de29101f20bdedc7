//! Matching of patterns with trees: bindings of borrowed parts.
#![tactic(auto)]

mod compare;
mod contexts;
mod expressions;
mod found;
mod heads;
mod parts;
mod statements;
mod terms;
mod tests;

pub use contexts::{FocusTest, first_focus, passes};
pub use expressions::match_expr;
pub use found::{Entry, Found, bind};
pub use heads::{match_class, match_kind, match_modality, match_name, match_result, match_sort};
pub use parts::PartRef;
pub use statements::{match_code, match_stmt, match_whole};
pub use terms::{match_loc, match_term};
pub use tests::same_variable;
