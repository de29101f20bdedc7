//! The resolved code of a program's bodies.

ghost use Rattle.std.specs.Prelude.{◌++◌, ◌∷◌, [], List, IfErr, IfOk, map};
ghost use Rattle.jd_bodies.specs.Bodies as plain;
ghost use Rattle.jd_body_code.specs.Made.{GivesBody};
ghost use Rattle.jd_check.specs.Building.{AreBodies, AreResolved, GivesBodies, IsRefusal, IsRefused, body_view, class_bodies, info_bodies, member_bodies};
ghost use Rattle.jd_classes.specs.Tables.{AreTables};
ghost use Rattle.jd_jinfos.specs.Views.{class_info_view};
ghost use Rattle.jd_syntax.specs.JavaTrees.{JavaUnit, member_view};

use crate::refused::{PRELUDE_COUNT, Refused, judge_classes};
use jd_base::{ClassId, NoMemory, both};
use jd_body_code::{Made, body_of};
use jd_classes::{ClassInfo, Classes};
use jd_declared::Declared;
use jd_lists::with;
use jd_naming::Declares;
use jd_syntax::{Code, Member, VarDecl, VarId};
use std::alloc::Global;

/// The body of a method or constructor.
#[derive(Drop)]
pub struct Body {
    /// `this`, where there is one, the parameters, the locals.
    pub vars: Vec<VarDecl>,
    /// What it does.
    pub code: Code,
    /// By the numbers of its loops, the parameters, and the locals that are declared where the loop begins.
    pub scopes: Vec<Vec<VarId>>,
}

/// The bodies of a program, by the numbers of its methods and constructors.
#[derive(Drop)]
pub struct Bodies {
    /// One for each, in their order.
    pub bodies: Vec<Body>,
}

/// Why a program's bodies are not resolved.
#[derive(Clone, Copy, PartialEq, Eq)]
pub enum CheckRefusal {
    /// A token of them is refused, and this is the first.
    Refused(Refused),
    /// Memory ran out.
    NoMemory,
}

// No body.
fn no_bodies(alloc: Global) -> Result<Vec<Body>, NoMemory>
    ensures { GivesBodies result [] }
{
    Ok(Vec::new(alloc))
}

// One more body.
fn with_body(
    bodies: Result<Vec<Body>, NoMemory>,
    made: Result<Made, NoMemory>,
) -> Result<Vec<Body>, NoMemory>
    ensures { (bs : List plain.PlainBody) (b : plain.PlainBody) → GivesBodies bodies bs → GivesBody made b → GivesBodies result (bs ++ b ∷ []) }
{
    let (bodies, made) = both(bodies, made)?;
    let Made {
        variables,
        code,
        scopes,
    } = made;
    with(
        bodies,
        Body {
            vars: variables,
            code,
            scopes,
        },
    )
}

// The bodies with that of a member, if it is a method or constructor.
fn with_member<D: Declares>(
    alloc: Global,
    d: &D,
    class: u32,
    bodies: Result<Vec<Body>, NoMemory>,
    member: &Member,
) -> Result<Vec<Body>, NoMemory>
    ensures { (bs : List plain.PlainBody) → GivesBodies bodies bs → GivesBodies result (bs ++ member_bodies (D.declarations d.now) class (member_view member.now)) }
{
    match member {
        Member::Method(m) => with_body(bodies, body_of(alloc, d, class, m)),
        Member::Field(_) => bodies,
        Member::Constant(_) => bodies,
    }
}

// The bodies with those of members.
fn with_members<D: Declares>(
    alloc: Global,
    d: &D,
    class: u32,
    bodies: Result<Vec<Body>, NoMemory>,
    members: &[Member],
) -> Result<Vec<Body>, NoMemory>
    ensures { (bs : List plain.PlainBody) → GivesBodies bodies bs → GivesBodies result (bs ++ class_bodies (D.declarations d.now) class (map member_view members.now)) }
{
    let mut bodies = bodies;
    for member in members {
        bodies = with_member(alloc, d, class, bodies, member);
    }
    bodies
}

// The bodies with those of a class, if the files declare it.
fn with_class<D: Declares>(
    alloc: Global,
    d: &D,
    class: u32,
    bodies: Result<Vec<Body>, NoMemory>,
    info: &ClassInfo,
) -> Result<Vec<Body>, NoMemory>
    ensures { (bs : List plain.PlainBody) → GivesBodies bodies bs → GivesBodies result (bs ++ info_bodies (D.declarations d.now) class (class_info_view info.now)) }
{
    match &info.decl {
        None => bodies,
        Some(declared) => with_members(alloc, d, class, bodies, &declared.members),
    }
}

// All bodies.
fn all_bodies<D: Declares>(alloc: Global, d: &D, classes: &Classes) -> Result<Vec<Body>, NoMemory>
    ensures { (units : List JavaUnit) → AreTables units classes.now → GivesBodies result (plain.bodies (D.declarations d.now) units) }
{
    let mut bodies = no_bodies(alloc);
    for class in PRELUDE_COUNT..classes.class_count() {
        bodies = with_class(alloc, d, class, bodies, classes.class(ClassId(class)));
    }
    bodies
}

// All bodies, or the first refused token, by what the program declares.
fn checked<D: Declares>(alloc: Global, d: &D, classes: &Classes) -> Result<Bodies, CheckRefusal>
    ensures ok { (units : List JavaUnit) → AreTables units classes.now → IfOk result (λ b. AreBodies (D.declarations d.now) units (map body_view b.bodies.items)) }
    ensures err { (units : List JavaUnit) → AreTables units classes.now → IfErr result (λ e. IsRefusal (D.declarations d.now) units e) }
{
    match judge_classes(alloc, d, classes) {
        Err(NoMemory) => Err(CheckRefusal::NoMemory),
        Ok(Some(refused)) => Err(CheckRefusal::Refused(refused)),
        Ok(None) => match all_bodies(alloc, d, classes) {
            Err(NoMemory) => Err(CheckRefusal::NoMemory),
            Ok(bodies) => Ok(Bodies { bodies }),
        },
    }
}

/// The resolved bodies of a program's methods and constructors by their numbers, or the first refused token of them in the order of the
/// files; of one token the least number (JLS 6.3, 8, 14, 15).
///
/// # Errors
///
/// `Refused` where a token is refused; `NoMemory` if memory runs out.
pub fn check_bodies(alloc: Global, classes: &Classes) -> Result<Bodies, CheckRefusal>
    requires { (units : List JavaUnit) × AreTables units classes.now }
    ensures ok { (units : List JavaUnit) → AreTables units classes.now → IfOk result (λ b. AreResolved units (map body_view b.bodies.items)) }
    ensures err { (units : List JavaUnit) → AreTables units classes.now → IfErr result (λ e. IsRefused units e) }
{
    match Declared::of(alloc, classes) {
        Err(NoMemory) => Err(CheckRefusal::NoMemory),
        Ok(declared) => checked(alloc, &declared, classes),
    }
}
