//! What a file's derivation tells without trees: what no file has beyond the grammar, and what nests too deep. Each node of the
//! derivation has attributes that its production makes of those of its parts (Aho, Sethi and Ullman, Compilers, 5.1).
#![tactic(auto)]

mod form;
mod heading;
mod laws;
mod nodes;
mod rows;
mod rules;
mod short;

pub use form::{Asked, Form, Kind};
pub use heading::{Constructor, Declared, Heading};
pub use laws::rows_fit;
pub use nodes::{Attributes, judge};
pub use rows::{Row, Rule, names_of};
