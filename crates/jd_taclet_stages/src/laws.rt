ghost use Rattle.jd_taclet_stages.specs.Laws.{StagesDecide, StepsAreOneWay};

use jd_pattern_laws::matching_is_exact;
use jd_tree_tests::trees_are_compared;

/// A law, without code: the stages of a step by a row decide whether it is one, for which cause it is none, and its premises.
pub fn stages_decide()
    ensures { StagesDecide }
{
    matching_is_exact();
}

/// A law, without code: the premises of a step by a row are determined.
pub fn steps_are_one_way()
    ensures { StepsAreOneWay }
{
    matching_is_exact();
    trees_are_compared();
}
