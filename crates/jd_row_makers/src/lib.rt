//! Makers of the rows of cases: of what a declaration says and of its clauses as formulas, member by member.
#![tactic(auto)]

mod adding;
mod constants;
mod ends;
mod entry;
mod forms;
mod heads;
mod rows;
mod terms;

pub use adding::add;
pub use constants::parameter_constant;
pub use ends::{one_of_classes, signalled, sort_of_type};
pub use forms::{
    and, created, equal, exact, implies, in_int, instance, invariant, or, well_formed,
};
pub use heads::{Behaviour, Clauses, ContractType, DeclaredType, FieldSort, Head, Parameter, Role};
pub use rows::{CaseNumber, case_form};
pub use terms::{Moment, heap, heap_variable, receiver, result_variable, thrown, thrown_variable};
