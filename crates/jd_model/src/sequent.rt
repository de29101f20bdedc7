use jd_term::{Formula, Loc, Term};

/// A sequent: where all formulas on the left hold, one on the right does (The KeY Book, 2.2.3).
#[derive(Drop)]
pub struct Sequent {
    /// The formulas on the left, the antecedent.
    pub left: Vec<Formula>,
    /// The formulas on the right, the succedent.
    pub right: Vec<Formula>,
}

/// A side of a sequent.
#[derive(Clone, Copy, PartialEq, Eq)]
pub enum Side {
    /// The antecedent.
    Left,
    /// The succedent.
    Right,
}

/// A place in a sequent: a side, the number of the formula there from 1, and the numbers of the
/// children from it down. Children count from 1 in the written order of the parts that are terms,
/// formulas or locations.
#[derive(Drop)]
pub struct Place {
    /// The side.
    pub side: Side,
    /// The number of the formula on that side, from 1.
    pub index: u32,
    /// The numbers of the children, each from 1.
    pub path: Vec<u32>,
}

/// What stands at a place.
#[derive(Clone, Copy)]
pub enum Node<'a> {
    /// A formula.
    Formula(&'a Formula),
    /// A term.
    Term(&'a Term),
    /// A location set.
    Loc(&'a Loc),
}
