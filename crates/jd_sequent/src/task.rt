ghost use Rattle.jd_tparse.specs.Programs.{AreSomeTables};

use crate::obligation::Obligation;
use jd_classes::Classes;
use jd_model::Contracts;

/// What the rules may look up beside the sequent. Its tables are those of a program's classes.
#[derive(Clone, Copy)]
pub struct Task<'a> {
    /// The tables of the program's classes.
    pub classes: &'a Classes,
    /// The contracts, invariants and bodies of the program.
    pub contracts: &'a Contracts,
    /// The obligation that is being proved.
    pub obligation: &'a Obligation,
    pub ghost program: { ∥ AreSomeTables classes.now ∥₁ },
}
