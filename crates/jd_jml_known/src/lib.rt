//! What the names in JML stand for, and what the making of its formulas asks of an expression: the type of its value, the class before a
//! dot, the member behind it, and whether it is a literal.
#![tactic(auto)]

mod members;
mod method_names;
mod names;
mod sight;
mod types;

pub use members::{Member, class_member, literal, member_read};
pub use method_names::{Known, KnownNames};
pub use names::{Meaning, Names, bound, caught, looked_up, no_names, of_method};
pub use sight::Sight;
pub use types::{
    Over, bound_value, class_before, is_boolean, kind_of, over_type, sort_of_type, sort_of_value,
    static_type,
};
