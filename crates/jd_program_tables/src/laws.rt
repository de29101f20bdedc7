ghost use Rattle.jd_program_tables.specs.Laws.{ListedFieldsAreThose, ListedTablesAreMade, TablesOfProgramsStand};

use jd_body_variables::bodies_begin_with_parameters;
use jd_case_rows::rows_stand;
use jd_jclasses::one_method;
use jd_listed_tables::families_play_no_part;
use jd_spoken::contracts_speak;

/// Tables whose rows are those of the program's cases, in the names of the bodies that run, stand for the program, where no token of its
/// bodies and JML is refused (The KeY Book, 8.2 and 8.3).
pub fn tables_of_programs_stand()
    ensures { TablesOfProgramsStand }
{
    rows_stand();
    one_method();
    contracts_speak();
}

/// The listed tables are such tables: a row of each case in the order of the cases, the invariants of each class, and each body by its
/// number.
pub fn listed_tables_are_made()
    ensures { ListedTablesAreMade }
{
    bodies_begin_with_parameters();
    families_play_no_part();
}

/// The fields that are listed of a class are those of its objects (JLS 8.2).
pub fn listed_fields_are_those()
    ensures { ListedFieldsAreThose }
{}
