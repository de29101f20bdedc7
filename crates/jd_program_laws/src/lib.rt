//! Laws, without code: what holds of each program that files mean.
#![tactic(auto)]

mod laws;

pub use laws::{
    bodies_of_programs_are_resolved, calls_are_resolved, classes_are_one,
    classes_of_programs_stand, every_closed_case_of_programs_is_kept, families_are_reachable,
    programs_have_meanings, tables_are_classes,
};
