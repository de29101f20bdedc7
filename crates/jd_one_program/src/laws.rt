ghost use Rattle.jd_one_program.specs.Laws.{ProgramsAreOne};

use jd_declaration_laws::declarations_are_one;
use jd_jclasses::one_method;

/// Two programs that are both what files mean have the same classes, fields, methods, bodies and invariants.
pub fn programs_are_one()
    ensures { ProgramsAreOne }
{
    declarations_are_one();
    one_method();
}
