ghost use Rattle.std.specs.Prelude.{◌≡◌};
ghost use Rattle.jd_sequent.specs.Obligations.{names_of, task_view};
ghost use Rattle.jd_tparse.specs.Names.{table_of};

use crate::task::Task;
use jd_tparse::Names;

/// The names that the text of a task's terms may use.
pub trait OfTask<'a>: Sized {
    /// Those of the program's classes and of the obligation's variables and constants. Takes no memory.
    fn of(task: &Task<'a>) -> Names<'a>
        ensures { table_of result ≡ names_of (task_view task.now) };
}

impl<'a> OfTask<'a> for Names<'a> {
    fn of(task: &Task<'a>) -> Names<'a> {
        Names::new(task.classes, &task.obligation.vars, &task.obligation.consts)
    }
}
