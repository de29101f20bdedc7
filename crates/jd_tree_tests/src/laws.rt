ghost use Rattle.jd_tree_tests.specs.Laws.{TreesAreCompared};

/// A law, without code: there are exact tests of equality of all that schema variables stand for.
pub fn trees_are_compared()
    ensures { TreesAreCompared }
{}
