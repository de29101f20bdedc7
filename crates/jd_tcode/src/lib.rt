//! Code, read from bracketed expressions, over whatever names stand for.
#![tactic(auto)]

mod exprs;
mod made_exprs;
mod made_stmts;
mod parts;
mod reader;
mod stmts;
mod words;

pub use exprs::read_expr;
pub use parts::{Part, both_there, four_there, three_there};
pub use reader::{Reader, first_word, under};
pub use stmts::{read_code, read_stmt};
pub use words::{kind_in, variable_in};
