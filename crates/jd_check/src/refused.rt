//! The first refused token of a program.

ghost use Rattle.std.specs.Prelude.{◌≡◌, ◌<◌, List, None, IfOk, option_map};
ghost use Rattle.jd_bodies.specs.Refused.{first_fault};
ghost use Rattle.jd_bodies.specs.Scopes.{empty_scope};
ghost use Rattle.jd_check.specs.First.{IsFirst, class_fault, refused_view};
ghost use Rattle.jd_classes.specs.Tables.{AreTables};
ghost use Rattle.jd_jinfos.specs.Views.{class_info_view};
ghost use Rattle.jd_syntax.specs.JavaTrees.{JavaUnit};

use jd_base::{ClassId, NoMemory};
use jd_bodies::Fault;
use jd_classes::{ClassInfo, Classes};
use jd_declared::Declared;
use jd_locals::InBody;
use jd_naming::{Declares, InScope};
use jd_statements::{Stop, judge_members};
use std::alloc::Global;

/// How many classes are always there; they have no bodies.
pub(crate) const PRELUDE_COUNT: u32 = 10;

/// A token that no program has at its place.
#[derive(Clone, Copy, PartialEq, Eq)]
pub struct Refused {
    /// The number of its file.
    pub file: u32,
    /// Where it stands there, and why it is refused.
    pub fault: Fault,
}

// The first refused token of a class.
fn judge_class<D: Declares, S: InScope>(
    alloc: Global,
    d: &D,
    scope: &mut S,
    class: u32,
    info: &ClassInfo,
) -> Result<Option<Refused>, NoMemory>
    requires { S.scope scope.old ≡ empty_scope }
    ensures found { IfOk result (λ r. option_map refused_view r ≡ class_fault (D.declarations d.now) class (class_info_view info.now)) }
    ensures empty { IfOk result (λ r. r ≡ None → S.scope scope.new ≡ empty_scope) }
{
    let Some(declared) = &info.decl else {
        return Ok(None);
    };
    match judge_members(alloc, d, scope, class, &declared.members) {
        Ok(()) => Ok(None),
        Err(Stop::Refused(fault)) => Ok(Some(Refused {
            file: info.file,
            fault,
        })),
        Err(Stop::NoMemory) => Err(NoMemory),
    }
}

/// The same of all classes.
pub(crate) fn judge_classes<D: Declares>(
    alloc: Global,
    d: &D,
    classes: &Classes,
) -> Result<Option<Refused>, NoMemory>
    ensures { (units : List JavaUnit) → AreTables units classes.now → IfOk result (λ r. option_map refused_view r ≡ first_fault (D.declarations d.now) units) }
{
    let mut scope = InBody::new(alloc);
    for class in PRELUDE_COUNT..classes.class_count() {
        let info = classes.class(ClassId(class));
        let refused = judge_class(alloc, d, &mut scope, class, info)?;
        if refused.is_some() {
            return Ok(refused);
        }
    }
    Ok(None)
}

/// The first refused token of the bodies of a program's methods and constructors, in the order of the files; of one token the
/// least number (JLS 6.3, 8, 14, 15). None where each body is one.
///
/// # Errors
///
/// `NoMemory` if memory runs out.
pub fn first_refused(alloc: Global, classes: &Classes) -> Result<Option<Refused>, NoMemory>
    requires { (units : List JavaUnit) × AreTables units classes.now }
    ensures { (units : List JavaUnit) → AreTables units classes.now → IfOk result (λ r. IsFirst units (option_map refused_view r)) }
{
    let declared = Declared::of(alloc, classes)?;
    judge_classes(alloc, &declared, classes)
}
