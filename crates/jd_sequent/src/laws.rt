ghost use Rattle.jd_sequent.specs.Obligations.{task_view};
ghost use Rattle.jd_sequent.specs.Rules.{LeadsWithinLimits};
ghost use Rattle.jd_sequent.specs.SoundDerivations.{DerivationsAreSound};

use crate::rule::RuleSet;
use crate::task::Task;

/// Each derivation of a set of rules is sound: its sequent is valid where its goals are.
pub fn derivations_are_sound<R: RuleSet>(rules: &R, task: &Task<'_>)
    ensures { DerivationsAreSound (task_view task.now) (R.accepts rules.now (task_view task.now)) (LeadsWithinLimits (R.instance rules.now (task_view task.now))) }
{}
