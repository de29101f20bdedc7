ghost use Rattle.jd_jml_attributes.specs.Laws.{RowsFit};

/// Each row has as many names as the body of its production.
pub fn rows_fit()
    ensures { RowsFit }
{}
