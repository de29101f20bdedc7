//! Proof scripts, obligations, and what a set of rules is.
#![tactic(auto)]

mod bad;
mod laws;
mod limits;
mod names;
mod obligation;
mod rule;
mod script;
mod task;

pub use bad::Bad;
pub use jd_model::{
    BodyForm, CaseForm, Contracts, InvForm, Node, Place, Sequent, Side, at, replace_at,
};
pub use laws::derivations_are_sound;
pub use limits::is_within_limits;
pub use names::OfTask;
pub use obligation::{LoopForm, Obligation};
pub use rule::{Rule, RuleSet};
pub use script::{ScriptNode, ScriptTree, Step, one_tree};
pub use task::Task;
