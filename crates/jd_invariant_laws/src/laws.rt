ghost use Rattle.jd_invariant_laws.specs.Laws.{InvariantsAreResolved};

use jd_declaration_laws::declarations_are_one;

/// What is listed of a class's invariants, each expression resolved in the class, are its invariants, in their order: those that are written,
/// and that the fields are not null which may not be (JML Reference Manual, 6.2.13, 8.2).
pub fn invariants_are_resolved()
    ensures { InvariantsAreResolved }
{
    declarations_are_one();
}
