//! Patterns of rules as trees, in which schema variables stand for parts, and the rows that they make up (The KeY Book, 4.2).
#![tactic(auto)]

mod code;
mod condition;
mod formula;
mod heads;
mod taclet;
mod term;

pub use code::{SCode, SExpr, SStmt};
pub use condition::{AskedSort, Calculation, GivenForm, NumberTest, VarCond};
pub use formula::SFormula;
pub use heads::{MachineClass, SClass, SKind, SModality, SName, SResult, SSort};
pub use taclet::{InstVar, Pattern, Taclet, TacletGoal, TacletKind};
pub use term::{SLoc, STerm};
