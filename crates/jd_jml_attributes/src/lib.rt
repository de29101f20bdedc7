//! What a derivation of JML tells without trees: what no JML has beyond the grammar, and what nests too deep. Each node of the
//! derivation has attributes that its production makes of those of its parts (Aho, Sethi and Ullman, Compilers, 5.1).
#![tactic(auto)]

mod form;
mod laws;
mod nodes;
mod rows;
mod rules;
mod short;

pub use form::{Form, Kind, Link};
pub use laws::rows_fit;
pub use nodes::{JmlNodes, judge};
pub use rows::{Row, Rule, names_of};
