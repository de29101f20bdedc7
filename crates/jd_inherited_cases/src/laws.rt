ghost use Rattle.jd_inherited_cases.specs.Laws.{InheritedCasesAreThose, SeenMethodsAreMethods};

use jd_ancestry::depths_are_an_order;
use jd_jml_cases::lineages_are_classes_up;
use jd_jseen::numbers_of_classes;

/// A method that a class inherits has the contracts there that it has in the class that declares it (JLS 8.4.8; JML Reference Manual, 9.6).
pub fn inherited_cases_are_those()
    ensures { InheritedCasesAreThose }
{
    depths_are_an_order();
    numbers_of_classes();
    lineages_are_classes_up();
}

/// What a class sees by the name of a method is a method, of the class or of one that it extends (JLS 8.2, 8.4.8).
pub fn seen_methods_are_methods()
    ensures { SeenMethodsAreMethods }
{}
