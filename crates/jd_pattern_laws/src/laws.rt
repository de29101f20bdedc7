ghost use Rattle.jd_pattern_laws.specs.Laws.{MatchingIsExact, MatchingDecides, MatchingBinds, BindingsFixMeaning};

/// A law, without code: matching says exactly which instantiations make a find the tree.
pub fn matching_is_exact()
    ensures { MatchingIsExact }
{}

/// A law, without code: matching has no answer exactly where no instantiation makes a find the tree, and else its bindings choose one.
pub fn matching_decides()
    ensures { MatchingDecides }
{}

/// A law, without code: what matching answers binds all variables of the pattern.
pub fn matching_binds()
    ensures { MatchingBinds }
{}

/// A law, without code: bindings of all its variables fix what a pattern means.
pub fn bindings_fix_meaning()
    ensures { BindingsFixMeaning }
{}
