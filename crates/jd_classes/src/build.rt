//! The tables of classes, made of the trees of files.

ghost use Rattle.std.specs.Prelude.{◌≤◌, All, IfOk, IfErr, map, length};
ghost use Rattle.jd_jclasses.specs.Classes.{declared_classes};
ghost use Rattle.jd_jclasses.specs.Members.{declared_members};
ghost use Rattle.jd_jlists.specs.Views.{HasFewMembers};
ghost use Rattle.jd_syntax.specs.JavaTrees.{unit_view};
ghost use Rattle.jd_classes.specs.Refusals.{Refuses};
ghost use Rattle.jd_classes.specs.Tables.{AreTables};

use crate::classes::Classes;
use crate::gather::{Gathered, gather};
use crate::refusal::ClassRefusal;
use jd_jinfos::class_infos;
use jd_syntax::Unit;
use std::alloc::Global;

impl Classes {
    /// The tables of the classes of these files, in time and memory that grow as the files, and in sorts of their
    /// members.
    ///
    /// # Errors
    ///
    /// The first in the order of `ClassRefusal` that holds anywhere, at the first place at which it holds.
    pub fn build(alloc: Global, units: Vec<Unit>) -> Result<Classes, ClassRefusal>
        requires files { length units.items ≤ 999999999 }
        requires classes { length (declared_classes (map unit_view units.items)) ≤ 999999999 }
        requires places { All (λ d. HasFewMembers d.tree) (declared_classes (map unit_view units.items)) }
        requires members { length (declared_members (map unit_view units.items)) ≤ 999999999 }
        ensures built { IfOk result (AreTables (map unit_view units.items)) }
        ensures refused { IfErr result (Refuses (map unit_view units.items)) }
    {
        let Gathered {
            heads,
            depths,
            names,
            seen,
            families,
            graph,
            fields,
            methods,
            own,
        } = gather(alloc, &units)?;
        let classes = class_infos(alloc, &heads.parents, own, units)?;
        Ok(Classes {
            heads,
            depths,
            names,
            seen,
            families,
            graph,
            fields,
            methods,
            classes,
        })
    }
}
