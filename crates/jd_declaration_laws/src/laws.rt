ghost use Rattle.jd_declaration_laws.specs.Laws.{DeclarationsAreOne};

use jd_jclasses::one_method;

/// Two declarations that are both a program's give the same answers. No call is needed to use it: it holds of the definitions.
pub fn declarations_are_one()
    ensures { DeclarationsAreOne }
{
    one_method();
}
