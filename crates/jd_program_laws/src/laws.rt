ghost use Rattle.jd_program_laws.specs.Laws.{BodiesOfProgramsAreResolved, CallsOfProgramsAreResolved, EveryClosedCaseOfProgramsIsKept, FamiliesOfProgramsReach, ProgramsHaveMeanings};
ghost use Rattle.jd_program_laws.specs.TaskClasses.{ClassesAreOne, ClassesOfProgramsStand, TablesAreClasses};

use jd_ancestry::depths_are_an_order;
use jd_jclasses::one_method;
use jd_jml_meaning::cases_are_kept_alike;
use jd_jseen::{numbers_of_classes, numbers_of_routines};
use jd_oblig::every_closed_case_is_kept;
use jd_resolved_bodies::bodies_are_resolved;

/// No program that has tables is without a meaning, so that the laws below say something of each.
pub fn programs_have_meanings()
    ensures { ProgramsHaveMeanings }
{
    numbers_of_classes();
    numbers_of_routines();
}

/// Each family of methods reaches itself and what is reached by those that it reaches, and each case has one of the program's families.
pub fn families_are_reachable()
    ensures { FamiliesOfProgramsReach }
{}

/// The body that a call runs has a case for each case of the method that is called (JLS 15.12.4.4; JML Reference Manual, 16.1).
pub fn calls_are_resolved()
    ensures { CallsOfProgramsAreResolved }
{
    depths_are_an_order();
    one_method();
}

/// Each body of a program of which no token is refused is resolved: its runs end as those of a method may.
pub fn bodies_of_programs_are_resolved()
    ensures { BodiesOfProgramsAreResolved }
{
    bodies_are_resolved();
}

/// Where the obligations of a program's cases are closed by sound steps, each run of each method keeps each of its cases, as JML says it
/// (JML Reference Manual, 8.2, 9; The KeY Book, 8.3).
pub fn every_closed_case_of_programs_is_kept()
    ensures { EveryClosedCaseOfProgramsIsKept }
{
    bodies_are_resolved();
    cases_are_kept_alike();
    every_closed_case_is_kept();
}

/// What the tables of a program's classes tell is told of its files.
pub fn tables_are_classes()
    ensures { TablesAreClasses }
{}

/// Files tell one such thing, whatever tables are made of them.
pub fn classes_are_one()
    ensures { ClassesAreOne }
{}

/// What is told of the files' classes stands for each program that they mean: superclasses, fields with their types, look-up, results, the
/// kinds and families of methods with cases, and that calls are resolved (JLS 8.1.4, 8.2, 8.4.8, 15.12.4.4).
pub fn classes_of_programs_stand()
    ensures { ClassesOfProgramsStand }
{
    depths_are_an_order();
    one_method();
}
