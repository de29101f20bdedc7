//! Files of proof scripts, read token by token; their printer is given on.
#![tactic(auto)]

mod draft;
mod nodes;
mod part;
mod place;
mod proofs;
mod refusal;
mod stage;
mod stop;
mod turn;
mod whole;

pub use jd_script_print::print_script;
pub use jd_scripts::Proof;
pub use refusal::ScriptRefusal;
pub use whole::parse_script;
