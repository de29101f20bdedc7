ghost use Rattle.jd_spelled_tasks.specs.Laws.{FirstTasksAreSpelled};

use jd_body_variables::variables_are_made_of_names;
use jd_declaration_laws::declarations_are_one;
use jd_java_lexical::trees_are_lexical;
use jd_jml_literals::literals_of_jml_fit;
use jd_resolved_bodies::bodies_are_resolved;
use jd_straight_bodies::straight_bodies_are_known;
use jd_variable_words::variables_are_called_by_words;

/// The sequent of a task of the first form is spelled by the grammar, with the names of the task, and its variables have words that terms
/// read as them.
pub fn first_tasks_are_spelled()
    ensures { FirstTasksAreSpelled }
{
    straight_bodies_are_known();
    declarations_are_one();
    trees_are_lexical();
    variables_are_called_by_words();
    bodies_are_resolved();
    variables_are_made_of_names();
    literals_of_jml_fit();
}
