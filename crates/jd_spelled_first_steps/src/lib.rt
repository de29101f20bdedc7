//! The first rules keep sequents spelled: what they put for what they find is spelled by the grammar again. Definitions and laws, without
//! code.
#![tactic(auto)]

mod laws;

pub use laws::{
    first_instances_keep_spelled, focus_keeps_spelled, rewriting_keeps_spelled,
    set_simple_needs_term_names, simple_terms_are_spelled, spelled_formulas_are_sorted,
    variables_are_term_names,
};
