ghost use Rattle.jd_variable_words.specs.Laws.{VariablesAreCalledByWords};

/// In the trees of files that are read each parameter and local is called by an identifier that is no literal (JLS 3.8, 3.10).
pub fn variables_are_called_by_words()
    ensures { VariablesAreCalledByWords }
{}
