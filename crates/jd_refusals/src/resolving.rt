//! What a program's bodies and JML are resolved to.

ghost use Rattle.std.specs.Prelude.{◌≡◌, List, IfErr, IfOk, Some, option_map};
ghost use Rattle.jd_check.specs.Building as bodies;
ghost use Rattle.jd_check.specs.First as first;
ghost use Rattle.jd_classes.specs.Tables.{AreTables};
ghost use Rattle.jd_jmlcheck.specs.Views.{refusal_view};
ghost use Rattle.jd_refusals.specs.Refusals.{of_body, of_jml, refused_view};
ghost use Rattle.jd_refusals.specs.Resolving.{AreResolved, IsRefused, told};
ghost use Rattle.jd_syntax.specs.JavaTrees.{JavaUnit};

use crate::refused::{Refusal, Refused};
use jd_base::NoMemory;
use jd_bodies::Cause;
use jd_check::{Bodies, CheckRefusal, check_bodies};
use jd_classes::Classes;
use jd_jmlcheck::{SpecRefusal, Specs, check_specs};
use jd_lists::discard;
use jd_specifications::SpecCause;
use std::alloc::Global;

/// The bodies and specifications of a program.
#[derive(Drop)]
pub struct Resolved {
    /// The bodies of its methods and constructors.
    pub bodies: Bodies,
    /// What JML says of them and of its classes.
    pub specs: Specs,
}

/// Why a program is not resolved.
#[derive(Clone, Copy)]
pub enum ResolveRefusal {
    /// A token is refused, and this is the first.
    Refused(Refused),
    /// Memory ran out.
    NoMemory,
}

// A refused token of the bodies.
fn body_token(r: jd_check::Refused) -> Refused
    ensures { refused_view result ≡ of_body (first.refused_view r) }
{
    Refused {
        file: r.file,
        at: r.fault.at,
        why: Refusal::Body(r.fault.cause),
    }
}

// The refusal of a token of the bodies.
fn of_bodies(e: CheckRefusal) -> ResolveRefusal
    ensures { (units : List JavaUnit) → bodies.IsRefused units e → IsRefused units result }
{
    match e {
        CheckRefusal::Refused(r) => ResolveRefusal::Refused(body_token(r)),
        CheckRefusal::NoMemory => ResolveRefusal::NoMemory,
    }
}

// A refused token of JML.
fn token(file: u32, at: u32, cause: SpecCause) -> ResolveRefusal
    ensures { told result ≡ Some (of_jml (file, record { at = at; cause = cause })) }
{
    ResolveRefusal::Refused(Refused {
        file,
        at,
        why: Refusal::Jml(cause),
    })
}

// The refusal of a token of the JML.
fn of_specs(e: SpecRefusal) -> ResolveRefusal
    ensures { told result ≡ option_map of_jml (refusal_view e) }
{
    match e {
        SpecRefusal::UnknownName { file, at } => token(file, at, SpecCause::UnknownName),
        SpecRefusal::TypeMismatch { file, at } => token(file, at, SpecCause::TypeMismatch),
        SpecRefusal::ResultHere { file, at } => token(file, at, SpecCause::ResultHere),
        SpecRefusal::OldHere { file, at } => token(file, at, SpecCause::OldHere),
        SpecRefusal::InvariantRecursion { file, at } => {
            token(file, at, SpecCause::InvariantRecursion)
        }
        SpecRefusal::CallInSpec { file, at } => token(file, at, SpecCause::CallInSpec),
        SpecRefusal::BadClause { file, at } => token(file, at, SpecCause::BadClause),
        SpecRefusal::NoMemory => ResolveRefusal::NoMemory,
    }
}

/// The bodies and specifications of a program, or the first refused token of the bodies of its methods and constructors, or else of its
/// JML; of one token the least number (JLS 6.3, 8, 14, 15; JML Reference Manual, 9, 12).
///
/// # Errors
///
/// `Refused` where a token is refused; `NoMemory` if memory runs out.
pub fn resolve(alloc: Global, classes: &Classes) -> Result<Resolved, ResolveRefusal>
    requires { (units : List JavaUnit) × AreTables units classes.now }
    ensures ok { (units : List JavaUnit) → AreTables units classes.now → IfOk result (AreResolved units) }
    ensures err { (units : List JavaUnit) → AreTables units classes.now → IfErr result (IsRefused units) }
{
    let bodies = match check_bodies(alloc, classes) {
        Err(refusal) => return Err(of_bodies(refusal)),
        Ok(bodies) => bodies,
    };
    match check_specs(alloc, classes, &bodies) {
        Ok(specs) => Ok(Resolved { bodies, specs }),
        Err(refusal) => {
            discard(bodies);
            Err(of_specs(refusal))
        }
    }
}
