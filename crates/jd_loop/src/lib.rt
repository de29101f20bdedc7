//! The rule for loops: its instances are sound steps.
#![tactic(auto)]

ghost use Rattle.jd_loop.specs.LoopLaws.{LoopRuleIsSound, LoopPremisesAreOne};
ghost use Rattle.jd_loop.specs.CountingLoop.{CountingStep};
ghost use Rattle.jd_loop.specs.NewNameInForm.{NewNameInFormIsUnsound};

/// Each instance of the loop rule is a sound step: where both premises are valid, the sequent is.
pub fn loop_rule_is_sound()
    ensures { LoopRuleIsSound }
{}

/// The premises of an instance are determined by the place and the number.
pub fn loop_premises_are_one()
    ensures { LoopPremisesAreOne }
{}

/// A step at a loop that counts is an instance with the premises as they are written; they are valid, and the task stands for a program.
pub fn counting_step()
    ensures { CountingStep }
{}

/// Where a loop's form holds a new name, an instance can have valid premises and a sequent that is not valid.
pub fn new_name_in_form()
    ensures { NewNameInFormIsUnsound }
{}
