ghost use Rattle.std.specs.Prelude.{◌≡◌, ◌≤◌, map, length, IfOk, IfErr, OnOk};
ghost use Rattle.jd_syntax.specs.JavaTrees.{unit_view};
ghost use Rattle.jd_jclasses.specs.Classes.{class_in, class_names, declared_classes, parents};
ghost use Rattle.jd_jclasses.specs.Refusals.{ClassesStand};
ghost use Rattle.jd_jheads.specs.Heads.{HeadRefuses, names_of};

use crate::cycles::check_cycles;
use crate::heads::Heads;
use crate::names::{class_number, read_names};
use crate::parents::read_parents;
use crate::placed::classes_of;
use crate::refusal::HeadRefusal;
use jd_syntax::Unit;
use std::alloc::Global;

/// The heads of the classes of these files, whose numbers are their places, in time and memory that
/// grow as the files.
///
/// # Errors
///
/// The first of these that any class has, at the first class that has it: `DuplicateClass` if it has
/// the name of an earlier class (JLS 7.6); `UnknownSuper` if what it extends does not exist (JLS
/// 8.1.4); `CyclicExtends` if it is its own ancestor (JLS 8.1.4). `NoMemory` if memory runs out.
pub fn read_heads(alloc: Global, units: &[Unit]) -> Result<Heads, HeadRefusal>
    requires classes { length (declared_classes (map unit_view units.now)) ≤ 999999999 }
    requires files { length units.now ≤ 999999999 }
    ensures names { IfOk result (λ h. names_of h ≡ class_names (map unit_view units.now)) }
    ensures parents { IfOk result (λ h. h.parents.items ≡ parents (map unit_view units.now)) }
    ensures standing { OnOk result (ClassesStand (map unit_view units.now)) }
    ensures refused { IfErr result (HeadRefuses (map unit_view units.now)) }
{
    let classes = classes_of(alloc, units)?;
    let names = read_names(alloc, &classes)?;
    let parents = read_parents(alloc, &names, &classes)?;
    check_cycles(alloc, &classes, &parents)?;
    Ok(Heads { names, parents })
}

impl Heads {
    /// The number of the class of this name.
    pub fn class_named(&self, name: &[u8]) -> Option<u32>
        ensures { result ≡ class_in (names_of self.now) name.now }
    {
        class_number(&self.names, name)
    }
}
