//! The first refused token of a program's JML.

ghost use Rattle.std.specs.Prelude.{◌≡◌, List, IfOk, option_map};
ghost use Rattle.jd_classes.specs.Tables.{AreTables};
ghost use Rattle.jd_jinfos.specs.Views.{class_info_view};
ghost use Rattle.jd_jml_refusals.specs.First.{IsFirst, class_fault, refused_view};
ghost use Rattle.jd_specifications.specs.Refused.{first_fault};
ghost use Rattle.jd_syntax.specs.JavaTrees.{JavaUnit};

use jd_base::{ClassId, NoMemory};
use jd_classes::{ClassInfo, Classes};
use jd_declared::Declared;
use jd_jml_judging::MethodNames;
use jd_jml_members::{Stop, judge_members};
use jd_naming::Declares;
use jd_specifications::SpecFault;
use std::alloc::Global;

// How many classes are always there; they have no JML.
const PRELUDE_COUNT: u32 = 10;

/// A token that no program has at its place.
#[derive(Clone, Copy, PartialEq, Eq)]
pub struct Refused {
    /// The number of its file.
    pub file: u32,
    /// Where it stands there, and why it is refused.
    pub fault: SpecFault,
}

// The first refused token of a class.
fn judge_class<D: Declares>(
    alloc: Global,
    d: &D,
    names: &mut MethodNames,
    class: u32,
    info: &ClassInfo,
) -> Result<Option<Refused>, NoMemory>
    ensures { IfOk result (λ r. option_map refused_view r ≡ class_fault (D.declarations d.now) class (class_info_view info.now)) }
{
    let Some(declared) = &info.decl else {
        return Ok(None);
    };
    match judge_members(
        alloc,
        d,
        names,
        class,
        &declared.members,
        declared.end.as_ref(),
    ) {
        Ok(()) => Ok(None),
        Err(Stop::Refused(fault)) => Ok(Some(Refused {
            file: info.file,
            fault,
        })),
        Err(Stop::NoMemory) => Err(NoMemory),
    }
}

// The same of all classes.
fn judge_classes<D: Declares>(
    alloc: Global,
    d: &D,
    classes: &Classes,
) -> Result<Option<Refused>, NoMemory>
    ensures { (units : List JavaUnit) → AreTables units classes.now → IfOk result (λ r. option_map refused_view r ≡ first_fault (D.declarations d.now) units) }
{
    let mut names = MethodNames::new(alloc);
    for class in PRELUDE_COUNT..classes.class_count() {
        let info = classes.class(ClassId(class));
        let refused = judge_class(alloc, d, &mut names, class, info)?;
        if refused.is_some() {
            return Ok(refused);
        }
    }
    Ok(None)
}

/// The first refused token of the JML of a program, in the order of the files; of one token the least cause (JML Reference Manual, 8, 9,
/// 12). None where all of it is a program's.
///
/// # Errors
///
/// `NoMemory` if memory runs out.
pub fn first_refused(alloc: Global, classes: &Classes) -> Result<Option<Refused>, NoMemory>
    requires { (units : List JavaUnit) × AreTables units classes.now }
    ensures { (units : List JavaUnit) → AreTables units classes.now → IfOk result (λ r. IsFirst units (option_map refused_view r)) }
{
    let declared = Declared::of(alloc, classes)?;
    judge_classes(alloc, &declared, classes)
}
