//! The form of proof scripts (trees and the tokens that spell them), how it is read token by token, and what a text that is no
//! such file is refused for. The type of proofs, and laws.
#![tactic(auto)]

ghost use Rattle.jd_scripts.specs.Answers.{OneAnswer};
ghost use Rattle.jd_scripts.specs.Laws.{EachFileIsRead, WhatIsReadIsAFile};

mod proof;

pub use proof::Proof;

/// The tokens of a file within the limits are read as that file.
pub fn files_are_read()
    ensures { EachFileIsRead }
{}

/// What is read is a file within the limits with those tokens, so that nothing else is read.
pub fn what_is_read_is_a_file()
    ensures { WhatIsReadIsAFile }
{}

/// A text is one file of scripts, or there is one reason why it is none.
pub fn one_answer()
    ensures { OneAnswer }
{}
