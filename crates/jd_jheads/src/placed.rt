//! The classes of files, each with its file's number.

ghost use Rattle.std.specs.Prelude.{◌≡◌, ◌++◌, ◌≤◌, map, length, IfOk, OnOk};
ghost use Rattle.jd_syntax.specs.JavaTrees.{class_view, unit_view};
ghost use Rattle.jd_jclasses.specs.Classes.{declared_classes};
ghost use Rattle.jd_jheads.specs.Placed.{in_file, placed_view};

use jd_base::NoMemory;
use jd_syntax::{ClassDecl, Unit};
use std::alloc::Global;

// A class and the number of its file.
#[derive(Clone, Copy)]
pub(crate) struct Placed<'a> {
    pub(crate) file: u32,
    pub(crate) class: &'a ClassDecl,
}

// Adds the classes of a file.
#[tactic(auto, using(jd_syntax::proofs::Lists::rest))]
fn add_file<'a>(
    classes: &'a [ClassDecl],
    file: u32,
    out: &mut Vec<Placed<'a>>,
) -> Result<(), NoMemory>
    ensures { OnOk result (map placed_view out.new.items
        ≡ map placed_view out.old.items ++ map (in_file file) (map class_view classes.now)) }
{
    for class in classes {
        out.push(Placed { file, class })?;
    }
    Ok(())
}

// The classes of the files in order.
#[tactic(auto, using(jd_syntax::proofs::Lists::rest))]
pub(crate) fn classes_of<'a>(alloc: Global, units: &'a [Unit]) -> Result<Vec<Placed<'a>>, NoMemory>
    requires { length units.now ≤ 999999999 }
    ensures { IfOk result (λ v. map placed_view v.items ≡ declared_classes (map unit_view units.now)) }
{
    let mut out = Vec::new(alloc);
    let mut file: u32 = 0;
    for unit in units {
        add_file(&unit.classes, file, &mut out)?;
        file += 1;
    }
    Ok(out)
}
