ghost use Rattle.jd_sequent.specs.Obligations.{task_view};
ghost use Rattle.jd_sequent.specs.Rules.{LeadsWithinLimits};
ghost use Rattle.jd_replay.specs.FirstBad.{BadDerivesNothing, OneIsFirstBad};

use jd_sequent::{RuleSet, Task};

/// A tree with a first bad step derives nothing.
pub fn bad_derives_nothing<R: RuleSet>(rules: &R, task: &Task<'_>)
    ensures { BadDerivesNothing (LeadsWithinLimits (R.instance rules.now (task_view task.now))) (R.cause rules.now (task_view task.now)) }
{}

/// At most one step of a tree is the first bad one, and for one cause.
pub fn one_is_first_bad<R: RuleSet>(rules: &R, task: &Task<'_>)
    ensures { OneIsFirstBad (LeadsWithinLimits (R.instance rules.now (task_view task.now))) (R.cause rules.now (task_view task.now)) }
{}
