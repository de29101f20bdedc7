ghost use Rattle.jd_taclet_premises.specs.Premises.{PremisesAreMadeOfGoals};

/// A law, without code: the premises of a step are made of what the row's goals say.
pub fn premises_are_made_of_goals()
    ensures { PremisesAreMadeOfGoals }
{}
