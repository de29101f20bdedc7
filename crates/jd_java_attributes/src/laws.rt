ghost use Rattle.jd_java_attributes.specs.Laws.{RowsFit};

/// Each row has as many names and tokens as the body of its production.
pub fn rows_fit()
    ensures { RowsFit }
{}
