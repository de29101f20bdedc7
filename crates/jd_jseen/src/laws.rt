ghost use Rattle.jd_jseen.specs.Laws.{MembersAreOfClasses, MembersAreRoutines, ParentsAreClasses, RoutinesAreMembers};

/// Laws, without code: what a class extends is a class of the program, and each member is of one.
pub fn numbers_of_classes()
    ensures parents { ParentsAreClasses }
    ensures members { MembersAreOfClasses }
{}

/// Laws, without code: the number of a method or constructor is that of those before it among the
/// members of the program.
pub fn numbers_of_routines()
    ensures members { RoutinesAreMembers }
    ensures routines { MembersAreRoutines }
{}
