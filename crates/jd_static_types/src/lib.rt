//! Laws, without code: the type of an expression of Java is that of the value which it gives.
#![tactic(auto)]

mod laws;

pub use laws::given_types;
