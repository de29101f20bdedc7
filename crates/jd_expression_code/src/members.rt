//! What names, members and calls stand for.

ghost use Rattle.std.specs.Prelude.{◌≡◌, List};
ghost use Rattle.jd_bodies.specs.Codes as plain;
ghost use Rattle.jd_bodies.specs.Codes.{Made};
ghost use Rattle.jd_bodies.specs.Variables.{Progress};
ghost use Rattle.jd_code_makers.specs.Held.{Holds};
ghost use Rattle.jd_code_makers.specs.Makers.{GivesExpr};
ghost use Rattle.jd_expression_code.specs.Decided.{called_by, member_by, targeted_by};
ghost use Rattle.jd_syntax.specs.Codes.{Expr};

use jd_base::NoMemory;
use jd_bodies::{Callee, Meaning, ValueType, Variable};
use jd_code_makers as makers;
use jd_judging::callee_by_name;
use jd_naming::Declares;
use jd_syntax::CodeExpr;
use std::alloc::Global;

/// What is read by a name behind a dot.
#[derive(Clone, Copy)]
pub enum Member {
    /// A constant; what stands before the dot has no code.
    Constant(i128),
    /// The field of this number.
    Field(u32),
    /// The length of an array.
    Length,
    /// Nothing.
    Nothing,
}

/// What is called by a name behind a dot.
#[derive(Clone, Copy)]
pub enum Called {
    /// The method of a class that stands before the dot.
    OfClass(Callee),
    /// A static method on a value of the class.
    Static(u32, u32),
    /// A method that the class sees, on a value of the class.
    Virtual(u32, u32),
    /// No method of the value.
    Unknown,
    /// Nothing.
    Nothing,
}

/// A field that is assigned: of a value of the first type, by its number, with its type.
#[derive(Clone, Copy)]
pub struct Targeted {
    /// The type of the object.
    pub object: ValueType,
    /// The number of the field.
    pub field: u32,
    /// Its type.
    pub value: ValueType,
}

// A member of a class.
fn constant(variable: Option<Variable>) -> Member
    ensures { (q : Progress) (object : Progress → Made) → member_by result q object ≡ (q, plain.constant_code variable) }
{
    match variable {
        Some(Variable::Constant(n)) => Member::Constant(n),
        Some(Variable::Field(_, _)) => Member::Nothing,
        None => Member::Nothing,
    }
}

// A member of a value.
fn variable(variable: Option<Variable>) -> Member
    ensures { (q : Progress) (object : Progress → Made) → member_by result q object ≡ plain.variable_code variable q object }
{
    match variable {
        Some(Variable::Constant(n)) => Member::Constant(n),
        Some(Variable::Field(f, _)) => Member::Field(f),
        None => Member::Nothing,
    }
}

/// What the name of a member stands for, behind the name of a class or a value of a type.
pub fn member_read<D: Declares>(d: &D, name: &[u8], class: Option<u32>, t: ValueType) -> Member
    ensures { (q : Progress) (object : Progress → Made) → member_by result q object ≡ plain.member_code (D.declarations d.now) name.now class t q object }
{
    match class {
        Some(c) => constant(d.variable(c, name)),
        None => match t {
            ValueType::Class(c) => variable(d.variable(c, name)),
            _ => Member::Length,
        },
    }
}

// A method of a value of the class.
fn called_on<D: Declares>(d: &D, class: u32, method: Option<u32>) -> Called
    ensures { (object : Progress → Made) (arguments : Progress → Progress × List Expr) (q : Progress) → called_by (D.declarations d.now) result object arguments q ≡ plain.method_on (D.declarations d.now) class method (object q) arguments }
{
    match method {
        None => Called::Unknown,
        Some(m) => {
            if d.signature(m).is_static {
                Called::Static(class, m)
            } else {
                Called::Virtual(class, m)
            }
        }
    }
}

/// What the name of a method stands for, behind the name of a class or a value of a type.
pub fn method_called<D: Declares>(d: &D, name: &[u8], class: Option<u32>, t: ValueType) -> Called
    ensures { (object : Progress → Made) (arguments : Progress → Progress × List Expr) (q : Progress) → called_by (D.declarations d.now) result object arguments q ≡ plain.called (D.declarations d.now) name.now class t object arguments q }
{
    match class {
        Some(c) => Called::OfClass(callee_by_name(d, c, name)),
        None => match t {
            ValueType::Class(c) => called_on(d, c, d.method(c, name)),
            _ => Called::Nothing,
        },
    }
}

/// What is assigned by the name of a member, behind the name of a class or a value of a type.
pub fn field_assigned<D: Declares>(
    d: &D,
    name: &[u8],
    class: Option<u32>,
    t: ValueType,
) -> Option<Targeted>
    ensures { (object : Progress → Made) → targeted_by object result ≡ plain.member_target (D.declarations d.now) object name.now class t }
{
    match class {
        Some(_) => None,
        None => match t {
            ValueType::Class(c) => match d.variable(c, name) {
                Some(Variable::Field(field, value)) => Some(Targeted {
                    object: t,
                    field,
                    value,
                }),
                Some(Variable::Constant(_)) => None,
                None => None,
            },
            _ => None,
        },
    }
}

/// What a name stands for.
pub fn name_code(
    alloc: Global,
    p: &makers::Progress,
    x: &[u8],
    meaning: Meaning,
) -> Result<CodeExpr, NoMemory>
    ensures { (q : Progress) → Holds p.now q → GivesExpr result (plain.name_code q x.now meaning) }
{
    match meaning {
        Meaning::Local(t) => makers::variable(p.local(alloc, x, t)),
        Meaning::Field(f, _) => makers::read_field(alloc, makers::this(alloc), f),
        Meaning::Constant(n) => makers::integer(n),
        Meaning::Nothing => makers::null(),
    }
}
