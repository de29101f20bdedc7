//! Steps of taclets, as a relation between sequents and premises, and that they are sound: definitions and a law, without code.
#![tactic(auto)]

mod laws;

pub use laws::{
    places_are_surrounded, steps_of_sound_rows_are_sound, term_places_are_surrounded,
    terms_are_replaced,
};
