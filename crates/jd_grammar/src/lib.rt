//! Grammars as tables, their trees, and one parser for every LL(1) table (Aho, Sethi and Ullman, Compilers, 4.4).
#![tactic(auto)]

mod fold;
mod laws;
mod machine;
mod piles;
mod reading;
mod table;
mod walk;

pub use fold::{Nodes, value_of};
pub use laws::{one_order, one_tree};
pub use piles::{Blank, NodeParts, Pile, Piles};
pub use reading::{Refusal, parse};
pub use table::{Rule, Run, Symbol, Table};
