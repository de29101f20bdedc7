ghost use Rattle.jd_specifications.specs.Laws.{ResolvedIsScoped};

/// Each bound variable of what JML stands for has its binder, whatever is resolved.
pub fn resolved_is_scoped()
    ensures { ResolvedIsScoped }
{}
