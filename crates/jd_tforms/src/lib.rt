//! The forms of terms, location sets, formulas and code, the names in them, and reading them. Laws and the heads of forms alone.
#![tactic(auto)]

mod heads;

ghost use Rattle.jd_tforms.specs.FaultExamples.{FaultExamples};
ghost use Rattle.jd_tforms.specs.Laws.{Answers, ReadIsWritten};

pub use heads::{ExprHead, FormulaHead, LocHead, StmtHead, TermHead};

/// What is read has the text that was read, and what is written is read.
pub fn read_is_written()
    ensures { ReadIsWritten }
{}

/// An expression has a tree for its answer exactly where the grammar spells that tree so, with the names, the sorts and the
/// depth that it asks for.
pub fn answers()
    ensures { Answers }
{}

/// The answers to some expressions, worked out by hand.
pub fn fault_examples()
    ensures { FaultExamples }
{}
