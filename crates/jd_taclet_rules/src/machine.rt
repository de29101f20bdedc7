//! The classes of what the machine throws, by the task's tables.

ghost use Rattle.std.specs.Prelude.{◌≡◌};
ghost use Rattle.std.specs.Option.{unwrap_or};
ghost use Rattle.jd_sequent.specs.Obligations.{task_view};
ghost use Rattle.jd_task_classes.specs.Classes.{named_in};
ghost use Rattle.jd_taclet_rules.specs.Machine.{AreMachineClasses};

use jd_base::ClassId;
use jd_schema_instances::MachineClasses;
use jd_sequent::Task;

// The number of the class of the name, 0 where there is none.
fn number_of(task: &Task<'_>, name: &[u8]) -> ClassId
    ensures { result.0 ≡ unwrap_or (named_in (task_view task.now).classes.tables name.now) 0 }
{
    match task.classes.class_named(name) {
        Some(class) => class,
        None => ClassId(0),
    }
}

/// The classes of what the machine throws (JLS 11.1.1), by their numbers in the task's tables.
pub fn machine_classes(task: &Task<'_>) -> MachineClasses
    ensures { AreMachineClasses (task_view task.now) result }
{
    MachineClasses {
        null_pointer: number_of(task, b"NullPointerException"),
        division_by_zero: number_of(task, b"ArithmeticException"),
        out_of_bounds: number_of(task, b"ArrayIndexOutOfBoundsException"),
        bad_cast: number_of(task, b"ClassCastException"),
        negative_size: number_of(task, b"NegativeArraySizeException"),
    }
}
