ghost use Rattle.jd_java_lexical.specs.Laws.{TreesAreLexical};

/// In the trees of files that are read each literal is a 32-bit integer (JLS 3.10.1), no name of a local or parameter is `this`, begins with
/// `@` or has an apostrophe (JLS 3.8, 3.9), and no constructor is static (JLS 8.8.3); and each constant
/// that a program's names stand for is a 32-bit integer.
pub fn trees_are_lexical()
    ensures { TreesAreLexical }
{}
