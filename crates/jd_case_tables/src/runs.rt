//! Which constructors and methods a class runs.

ghost use Rattle.std.specs.Prelude.{◌≡◌, ◌++◌, ◌<◌, IfOk, List, OnOk, map};
ghost use Rattle.jd_bodies.specs.Declarations.{AreDeclarations};
ghost use Rattle.jd_case_tables.specs.Running.{all_runs, class_runs, run_view, runs_with};
ghost use Rattle.jd_classes.specs.Tables.{AreTables, class_count_of};
ghost use Rattle.jd_jinfos.specs.Views.{method_number};
ghost use Rattle.jd_syntax.specs.JavaTrees.{JavaUnit};

use jd_base::{ClassId, MethodId, NoMemory, both};
use jd_class_members::{constructors_run, methods_seen};
use jd_classes::Classes;
use jd_lists::put;
use jd_naming::Declares;
use std::alloc::Global;

/// A method or constructor that runs for an object of a class.
#[derive(Clone, Copy)]
pub(crate) struct Run {
    /// The class.
    pub(crate) class: ClassId,
    /// What runs.
    pub(crate) method: MethodId,
}

// Adds each of them for a class.
fn add_each(to: &mut Vec<Run>, class: ClassId, ms: &[MethodId]) -> Result<(), NoMemory>
    ensures { OnOk result (map run_view to.new.items ≡ map run_view to.old.items ++ runs_with class.0 (map method_number ms.now)) }
{
    for m in ms {
        put(to, Run { class, method: *m })?;
    }
    Ok(())
}

// Adds those that run for a class.
fn add_class<D: Declares>(
    alloc: Global,
    d: &D,
    classes: &Classes,
    to: &mut Vec<Run>,
    class: ClassId,
) -> Result<(), NoMemory>
    requires tables { (units : List JavaUnit) × AreTables units classes.now }
    requires class { class.0 < class_count_of classes.now }
    ensures { (units : List JavaUnit) → AreTables units classes.now → AreDeclarations units (D.declarations d.now)
        → OnOk result (map run_view to.new.items ≡ map run_view to.old.items ++ class_runs units (D.declarations d.now) class.0) }
{
    let (constructors, methods) = both(
        constructors_run(alloc, classes, class),
        methods_seen(alloc, d, classes, class),
    )?;
    add_each(to, class, &constructors)?;
    add_each(to, class, &methods)
}

/// Those of all classes, in the order of the obligations: of each class the constructors that run for it, then its methods.
///
/// # Errors
///
/// `NoMemory` if memory runs out.
pub(crate) fn runs<D: Declares>(
    alloc: Global,
    d: &D,
    classes: &Classes,
) -> Result<Vec<Run>, NoMemory>
    requires { (units : List JavaUnit) × AreTables units classes.now }
    ensures { (units : List JavaUnit) → AreTables units classes.now → AreDeclarations units (D.declarations d.now)
        → IfOk result (λ v. map run_view v.items ≡ all_runs units (D.declarations d.now)) }
{
    let mut made = Vec::new(alloc);
    for class in 0..classes.class_count() {
        add_class(alloc, d, classes, &mut made, ClassId(class))?;
    }
    Ok(made)
}
