use jd_bracketed::Reading;
use jd_sequent::Step;
use std::alloc::Global;

/// What comes next in a proof: a tree or the end of the innermost step, a part of a step, or the end of the proof.
#[derive(Clone, Copy)]
pub(crate) enum Part {
    TreeNext,
    RuleNext,
    PlaceNext,
    AssumesNext,
    AssumedNext,
    InstsNext,
    InstNext,
    InstName,
    InstBody,
    TreeEnd,
}

/// The step that is being read, and the name and the expression of its last instantiation. Which of them are read so far, the
/// part that comes next tells.
#[derive(Drop)]
pub(crate) struct Draft {
    pub step: Step,
    pub inst: Vec<u8>,
    pub reading: Reading,
}

/// A step without parts.
pub(crate) fn no_step(alloc: Global) -> Step {
    Step {
        rule: Vec::new(alloc),
        place: None,
        assumes: Vec::new(alloc),
        insts: Vec::new(alloc),
    }
}

impl Draft {
    /// Of a step of which nothing is read.
    pub(crate) fn new(alloc: Global) -> Draft {
        Draft {
            step: no_step(alloc),
            inst: Vec::new(alloc),
            reading: Reading::Before,
        }
    }
}
