//! Rows of rules, what their variables stand for, and what a row's goals say then (The KeY Book, 4.2).
#![tactic(auto)]

mod insts;
mod matching;
mod part;

pub use insts::Insts;
pub use jd_schema_instances::MachineClasses;
pub use jd_schema_trees::{
    InstVar, Pattern, SFormula, STerm, Taclet, TacletGoal, TacletKind, VarCond,
};
pub use jd_taclet_premises::{GoalParts, Replacement};
pub use matching::{instantiate, match_at};
pub use part::Part;
