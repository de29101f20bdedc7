//! What a call of the program answers: its status, and the text that it writes.
#![tactic(auto)]

mod answer;
mod goals;
mod java;
mod report;
mod script;
mod status;
mod text;
mod token;
mod words;

pub use answer::{Answer, Stop, answer_to, one_answer};
pub use status::Status;
