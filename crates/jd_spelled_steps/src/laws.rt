ghost use Rattle.jd_spelled_steps.specs.Laws.{
  ConditionsHold,
  RowsAreMet,
  RowsKeep,
  StepsHaveInstances,
  StepsKeepSpelled,
};

use jd_spelled_trees::places_are_spelled;
use jd_tforms::answers;

/// Each row of logic and of integers keeps trees spelled, and each pattern of its goals has its instance.
pub fn rows_keep()
    ensures { RowsKeep }
{}

/// The conditions of each of these rows that hold of each sequent which rules take are met, wherever what it finds is spelled.
pub fn rows_are_met()
    ensures { RowsAreMet }
{}

/// A step by a row that keeps trees spelled leads from sequents that rules take to such sequents, where these are within the limits.
pub fn steps_keep_spelled()
    ensures { StepsKeepSpelled }
{
    places_are_spelled();
    answers();
}

/// There each pattern of the goals has its instance, under each instantiation that a step admits.
pub fn steps_have_instances()
    ensures { StepsHaveInstances }
{
    places_are_spelled();
    answers();
}

/// There the conditions hold that hold of each sequent which rules take, under each instantiation that finds something.
pub fn conditions_hold()
    ensures { ConditionsHold }
{
    places_are_spelled();
    answers();
}
