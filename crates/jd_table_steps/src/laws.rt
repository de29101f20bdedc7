ghost use Rattle.jd_table_steps.specs.Laws.{TableStepsAreRuleSteps};
ghost use Rattle.jd_table_steps.specs.Tables.{AreSpelledRules, rule_rows};

/// At a sequent that the grammar spells, steps by a table's rows are sound, lead to such sequents, have one list of premises, and have no
/// cause where these are within the limits; and each row can be used there.
pub fn table_steps_are_rule_steps()
    ensures { TableStepsAreRuleSteps }
{}

/// The rows of logic and of integers are such a table.
pub fn rows_are_spelled_rules()
    ensures { AreSpelledRules rule_rows }
{}
