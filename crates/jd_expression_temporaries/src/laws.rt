ghost use Rattle.jd_expression_temporaries.specs.Laws.{ExpressionsAddTemporaries};

/// The making of an expression's code adds temporaries behind the variables that are there, and no parameter or local.
pub fn expressions_add_temporaries()
    ensures { ExpressionsAddTemporaries }
{}
