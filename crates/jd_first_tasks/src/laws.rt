ghost use Rattle.jd_first_tasks.specs.Laws.{ClosedFirstTasksAreKept, OneFirstTask};

use jd_body_variables::body_variables_are_ordinary;
use jd_declaration_laws::declarations_are_one;
use jd_java_lexical::trees_are_lexical;
use jd_one_program::programs_are_one;
use jd_program_laws::{
    classes_are_one, classes_of_programs_stand, every_closed_case_of_programs_is_kept,
};
use jd_program_tables::{
    listed_fields_are_those, listed_tables_are_made, tables_of_programs_stand,
};

/// Files have one such task.
pub fn one_first_task()
    ensures { OneFirstTask }
{
    programs_are_one();
    declarations_are_one();
    classes_are_one();
}

/// Where it is closed by sound steps, each case of each program that the files mean is kept as JML says it.
pub fn closed_first_tasks_are_kept()
    ensures { ClosedFirstTasksAreKept }
{
    programs_are_one();
    declarations_are_one();
    trees_are_lexical();
    body_variables_are_ordinary();
    listed_fields_are_those();
    listed_tables_are_made();
    tables_of_programs_stand();
    classes_of_programs_stand();
    every_closed_case_of_programs_is_kept();
}
