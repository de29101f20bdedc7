ghost use Rattle.jd_straight_bodies.specs.Laws.{LiteralsOfCodeAreKnown, StraightBodiesAreKnown};

use jd_expression_temporaries::expressions_add_temporaries;
use jd_local_texts::texts_of_locals_are_apart;
use jd_names::names_are_known;

/// Where no token of a static method is refused and its body only assigns and returns simple values, its code is sorted, each name in
/// it is a variable by its word, and so is each parameter, whose constant is known too; and terms read the word of each variable as it.
pub fn straight_bodies_are_known()
    ensures { StraightBodiesAreKnown }
{
    texts_of_locals_are_apart();
    expressions_add_temporaries();
    names_are_known();
}

/// Literals of code that 32 bits hold are read as they are written.
pub fn literals_of_code_are_known()
    ensures { LiteralsOfCodeAreKnown }
{}
