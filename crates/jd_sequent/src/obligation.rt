ghost use Rattle.std.specs.Prelude.{◌≡◌};
ghost use Rattle.jd_model.specs.ContractForms.{contracts_view};
ghost use Rattle.jd_sequent.specs.Obligations.{obligation_view, task_view};
ghost use Rattle.jd_task_classes.specs.Classes.{classes_view};
ghost use Rattle.jd_tparse.specs.Programs.{AreSomeTables};

use crate::task::Task;
use jd_base::{ClassId, ConstDecl, MethodId};
use jd_classes::Classes;
use jd_model::{Contracts, Sequent};
use jd_syntax::{VarDecl, VarId};
use jd_term::{Formula, Loc, Term};

/// What is specified of a loop.
#[derive(Drop)]
pub struct LoopForm {
    /// The loop's number in its method, from 1.
    pub number: u32,
    /// The parameters, and the locals that are declared where the loop begins.
    pub scope: Vec<VarId>,
    /// The locations that the loop may change.
    pub assignable: Loc,
    /// The conjunction of the loop's invariants.
    pub invariant: Formula,
    /// The term that falls with each turn, where there is one.
    pub variant: Option<Term>,
}

/// What is to be proved of one method, for one exact class and one case of its contract.
#[derive(Drop)]
pub struct Obligation {
    /// The obligation's name, as `C::m#1`.
    pub name: Vec<u8>,
    /// The exact class of the receiver.
    pub class: ClassId,
    /// The method or constructor.
    pub method: MethodId,
    /// The number of the case, from 1.
    pub case: u32,
    /// The variables of the method's body: `this`, where there is one, the parameters, the locals.
    pub vars: Vec<VarDecl>,
    /// The loops of the method's body.
    pub loops: Vec<LoopForm>,
    /// The constants of the obligation.
    pub consts: Vec<ConstDecl>,
    /// Whether the run is to end, so that the modality is a diamond.
    pub diamond: bool,
    /// The sequent to be derived.
    pub sequent: Sequent,
}

impl<'a> Task<'a> {
    /// The task of an obligation among the classes and contracts of its program. Takes no memory.
    pub fn of(
        classes: &'a Classes,
        contracts: &'a Contracts,
        obligation: &'a Obligation,
    ) -> Task<'a>
        requires { AreSomeTables classes.now }
        ensures view { task_view result ≡ record {
          classes = classes_view classes.now;
          contracts = contracts_view contracts.now;
          obligation = obligation_view obligation.now;
        } }
        ensures classes { result.classes.now ≡ classes.now }
    {
        Task {
            classes,
            contracts,
            obligation,
        }
    }
}
