//! Classes of the task's program: what stands above one, and by which number a name goes.

ghost use Rattle.std.specs.Prelude.{◌≡◌, length, nat_eq, option_map};
ghost use Rattle.std.specs.List.{list_any};
ghost use Rattle.jd_ancestry.specs.Walks.{parent_of};
ghost use Rattle.jd_jinfos.specs.Views.{class_number};
ghost use Rattle.jd_model.specs.Programs.{is_subclass};
ghost use Rattle.jd_sequent.specs.Obligations.{task_view};
ghost use Rattle.jd_syntax.specs.CodeViews.{kind_view};
ghost use Rattle.jd_taclets.specs.Conditions.{is_below};
ghost use Rattle.jd_task_classes.specs.Classes.{named_in, parents_in};
ghost use Rattle.jd_told_programs.specs.Told.{told_setting};
ghost use Rattle.jd_told_tables.specs.Lines.{line_up};

use jd_base::ClassId;
use jd_sequent::Task;
use jd_syntax::Kind;

/// How many classes there are.
pub(crate) fn class_count(task: &Task<'_>) -> u32
    ensures { result ≡ length (task_view task.now).classes.tables.classes }
{
    task.classes.class_count()
}

// The number of a class, where there is one.
fn number_of(class: Option<ClassId>) -> Option<u32>
    ensures { result ≡ option_map class_number class }
{
    match class {
        Some(class) => Some(class.0),
        None => None,
    }
}

/// What the class extends; nothing of a number that no class has.
pub(crate) fn extended(task: &Task<'_>, class: u32) -> Option<u32>
    ensures { result ≡ parent_of (parents_in (task_view task.now).classes.tables) class }
{
    if class < task.classes.class_count() {
        number_of(task.classes.class(ClassId(class)).parent)
    } else {
        None
    }
}

// Whether the other class is among so many from this one up.
fn is_among(task: &Task<'_>, class: u32, steps: u32, other: u32) -> bool
    ensures { result ≡ list_any (nat_eq other) (line_up (parents_in (task_view task.now).classes.tables) steps class) }
{
    let mut at = class;
    let mut left = steps;
    while left > 0 {
        left -= 1;
        if other == at {
            return true;
        }
        let Some(above) = extended(task, at) else {
            return false;
        };
        at = above;
    }
    false
}

// Whether the first class is the second or stands below it.
fn is_subclass(task: &Task<'_>, class: ClassId, other: ClassId) -> bool
    ensures { result ≡ is_subclass (told_setting (task_view task.now)).program class.0 other.0 }
{
    let count = class_count(task);
    class.0 < count && is_among(task, class.0, count, other.0)
}

/// The class of the name.
pub(crate) fn class_named(task: &Task<'_>, name: &[u8]) -> Option<ClassId>
    ensures { option_map class_number result ≡ named_in (task_view task.now).classes.tables name.now }
{
    task.classes.class_named(name)
}

// The number of `Object`.
fn object(task: &Task<'_>) -> u32
    ensures { result ≡ (told_setting (task_view task.now)).program.object }
{
    match class_named(task, b"Object") {
        Some(class) => class.0,
        None => 0,
    }
}

// Whether it is `Object`.
fn is_object(task: &Task<'_>, class: ClassId) -> bool
    ensures { result ≡ nat_eq class.0 (told_setting (task_view task.now)).program.object }
{
    class.0 == object(task)
}

/// Whether the first kind is the second or stands below it.
pub fn is_below(task: &Task<'_>, kind: Kind, other: Kind) -> bool
    ensures { result ≡ is_below (told_setting (task_view task.now)).program (kind_view kind) (kind_view other) }
{
    match kind {
        Kind::Class(class) => match other {
            Kind::Class(other) => is_subclass(task, class, other),
            Kind::IntArray => false,
        },
        Kind::IntArray => match other {
            Kind::Class(other) => is_object(task, other),
            Kind::IntArray => true,
        },
    }
}
