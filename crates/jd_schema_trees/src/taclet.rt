use crate::condition::VarCond;
use crate::formula::SFormula;
use crate::term::STerm;
use jd_lists::discard;
use jd_model::Side;

/// Where a row's find stands.
#[derive(Clone, Copy, PartialEq, Eq)]
pub enum TacletKind {
    /// `L`: a whole formula on the left.
    Left,
    /// `R`: a whole formula on the right.
    Right,
    /// `F`: a formula at any depth.
    Formula,
    /// `T`: a term at any depth.
    Term,
    /// `-`: there is none.
    Free,
}

/// What is found, or stands in its place.
#[derive(Drop)]
pub enum Pattern {
    /// A formula.
    Formula(SFormula),
    /// A term.
    Term(STerm),
}

/// A variable for which a step gives what it stands for: an `inst` or a `new` of the row.
#[derive(Drop)]
pub struct InstVar {
    /// The variable's name.
    pub name: Vec<u8>,
    /// Whether a new name is given.
    pub fresh: bool,
}

/// A premise.
pub struct TacletGoal {
    /// `+`: the found formula stays.
    pub keep: bool,
    /// What stands in the place of what was found.
    pub replace: Option<Pattern>,
    /// The formulas that are added on the left.
    pub left: Vec<SFormula>,
    /// The formulas that are added on the right.
    pub right: Vec<SFormula>,
}

/// A row of rules (The KeY Book, 4.2).
pub struct Taclet {
    /// The rule's name.
    pub name: Vec<u8>,
    /// Where what is found stands.
    pub kind: TacletKind,
    /// What is found; `None` exactly for a free row.
    pub find: Option<Pattern>,
    /// The formulas that are assumed, with their sides.
    pub assumes: Vec<(Side, SFormula)>,
    /// The variables for which a step gives what they stand for.
    pub insts: Vec<InstVar>,
    /// The conditions.
    pub conds: Vec<VarCond>,
    /// The premises; a row that closes has none.
    pub goals: Vec<TacletGoal>,
}

// Both are written out, so that they are proved here alone, and not in each crate that lets a row go.
impl Drop for TacletGoal {
    fn drop(self) {
        let TacletGoal {
            keep: _keep,
            replace,
            left,
            right,
        } = self;
        discard(replace);
        discard(left);
        discard(right);
    }
}

impl Drop for Taclet {
    fn drop(self) {
        let Taclet {
            name,
            kind: _kind,
            find,
            assumes,
            insts,
            conds,
            goals,
        } = self;
        discard(name);
        discard(find);
        discard(assumes);
        discard(insts);
        discard(conds);
        discard(goals);
    }
}
