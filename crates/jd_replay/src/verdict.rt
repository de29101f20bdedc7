use jd_sequent::{Bad, Sequent};

/// Why a step breaks a derivation.
#[derive(Drop)]
pub enum Cause {
    /// The rule refuses the step. `NoMemory` is never given here.
    Rule(Bad),
    /// The step has another number of children than premises.
    BranchCount {
        /// The number of children in the script.
        script: u32,
        /// The number of premises that the rule gives.
        rule: u32,
    },
}

/// What a script does to its goal.
#[derive(Drop)]
pub enum Verdict {
    /// The script derives the goal with no goal left.
    Closed {
        /// The number of its steps.
        steps: u64,
    },
    /// The script derives the goal with goals left.
    Open {
        /// The sequents of the open leaves in order; at least one.
        goals: Vec<Sequent>,
    },
    /// Some step breaks the derivation.
    Bad {
        /// The step's number in preorder, from 1, open leaves not counted.
        node: u64,
        /// Why.
        cause: Cause,
    },
}
