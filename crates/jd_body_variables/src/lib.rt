//! Laws, without code: which variables a body has.
#![tactic(auto)]

mod laws;

pub use laws::{
    bodies_begin_with_parameters, body_variables_are_ordinary, variables_are_made_of_names,
};
