//! Trees that the grammar spells, said part by part: what follows of their indices and sorts, of puts and lifts, and at places. Definitions
//! and laws, without code.
#![tactic(auto)]

mod laws;

pub use laws::{
    given_words_are_known, known_trees_are_spelled, narrow_trees_fit, places_are_spelled,
    spelled_indices_are_bound, spelled_terms_are_put, spelled_trees_are_known,
    spelled_trees_are_lifted, spelled_trees_are_widened, taken_sequents_are_spelled,
};
