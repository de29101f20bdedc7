//! What the tables of a program's classes list: its classes with their own members, its fields, and
//! its methods and constructors.
#![tactic(auto)]

mod classes;
mod copies;
mod info;
mod members;
mod own;

pub use classes::class_infos;
pub use info::{ClassInfo, FieldInfo, MethodInfo, OwnMembers};
pub use members::{field_infos, method_infos};
pub use own::own_members;
