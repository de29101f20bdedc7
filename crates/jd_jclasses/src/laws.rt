ghost use Rattle.jd_jclasses.specs.Laws.{OneClassRefusal, OneMethod};

use jd_ancestry::depths_are_an_order;

/// Law, without code: files are refused for one reason, at one place, and not where their classes are a program's.
pub fn one_class_refusal()
    ensures { OneClassRefusal }
{}

/// Law, without code: a class sees at most one method of a name (JLS 8.2), where the files' classes are a program's.
pub fn one_method()
    ensures { OneMethod }
{
    depths_are_an_order();
}
