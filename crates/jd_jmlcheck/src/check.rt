//! The specifications of a program, or why there are none.

ghost use Rattle.std.specs.Prelude.{◌≡◌, IfOk, List, None};
ghost use Rattle.jd_classes.specs.Tables.{AreTables};
ghost use Rattle.jd_jml_refusals.specs.First.{IsFirst};
ghost use Rattle.jd_jmlcheck.specs.Answers.{IsAnswer};
ghost use Rattle.jd_jmlcheck.specs.Specified as plain;
ghost use Rattle.jd_jmlcheck.specs.Views.{specs_view};
ghost use Rattle.jd_syntax.specs.JavaTrees.{JavaUnit};

use crate::made::{Specs, specs_of};
use crate::refusal::{SpecRefusal, of_refused};
use jd_base::NoMemory;
use jd_check::Bodies;
use jd_classes::Classes;
use jd_jml_refusals::first_refused;
use std::alloc::Global;

// The answer where no token is refused.
fn answered(made: Result<Specs, NoMemory>) -> Result<Specs, SpecRefusal>
    ensures { (units : List JavaUnit) → IsFirst units None → IfOk made (λ s. specs_view s ≡ plain.specs_of units) → IsAnswer units result }
{
    match made {
        Ok(specs) => Ok(specs),
        Err(NoMemory) => Err(SpecRefusal::NoMemory),
    }
}

/// The specifications of a program (JML Reference Manual, 8, 9, 12, 13.2), or the first refused token of its JML in the order of the files.
/// Bodies come first, for what is refused among them is told before.
///
/// # Errors
///
/// The first refused token, or `NoMemory`.
pub fn check_specs(alloc: Global, classes: &Classes, bodies: &Bodies) -> Result<Specs, SpecRefusal>
    requires { (units : List JavaUnit) × AreTables units classes.now }
    ensures { (units : List JavaUnit) → AreTables units classes.now → IsAnswer units result }
{
    let _made_before = bodies;
    match first_refused(alloc, classes) {
        Err(NoMemory) => Err(SpecRefusal::NoMemory),
        Ok(Some(refused)) => Err(of_refused(refused)),
        Ok(None) => answered(specs_of(alloc, classes)),
    }
}
