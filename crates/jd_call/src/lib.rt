//! The rules for calls by contracts and for allocation, as steps of a task.
#![tactic(auto)]

ghost use Rattle.jd_call.specs.Laws.{UseContractIsSound, NewObjectIsSound, UseContractIsDetermined, NewObjectIsDetermined};
ghost use Rattle.jd_call.specs.RecursiveCall.{RecursiveCallIsSound};
ghost use Rattle.jd_call.specs.WrittenAllocations.{AllocationsAreWritten};

/// Each use of a contract at a call is a sound step.
pub fn use_contract_is_sound()
    ensures { UseContractIsSound }
{}

/// Each allocation of a new object or array is a sound step.
pub fn new_object_is_sound()
    ensures { NewObjectIsSound }
{}

/// The place, the case's number and the step's number determine the premises of a use.
pub fn use_contract_is_determined()
    ensures { UseContractIsDetermined }
{}

/// The place and the step's number determine the premise of an allocation.
pub fn new_object_is_determined()
    ensures { NewObjectIsDetermined }
{}

/// The use of a recursive method's contract gives these premises as they are written, and its conditions can be met.
pub fn recursive_call_is_sound()
    ensures { RecursiveCallIsSound }
{}

/// The allocation of an object and of an array gives these premises as they are written.
pub fn allocations_are_written()
    ensures { AllocationsAreWritten }
{}
