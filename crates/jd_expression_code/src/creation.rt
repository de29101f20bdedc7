//! The code of objects and arrays that are created, and of calls.

ghost use Rattle.std.specs.Prelude.{◌≡◌, ◌∷◌, [], List};
ghost use Rattle.jd_bodies.specs.Codes as plain;
ghost use Rattle.jd_bodies.specs.Codes.{Made, steps_code};
ghost use Rattle.jd_code_makers.specs.Held.{Holds};
ghost use Rattle.jd_code_makers.specs.Makers.{GivesExpr, GivesExprs, GivesName, GivesStmts};
ghost use Rattle.jd_syntax.specs.Codes as code;
ghost use Rattle.jd_syntax.specs.Codes.{Expr, exprs_of, stmts_of};
ghost use Rattle.jd_syntax.specs.Names.{Name};

use jd_base::NoMemory;
use jd_bodies::{Callee, ValueType};
use jd_code_makers as makers;
use jd_code_makers::{
    alloc_object, appended_stmts, constructor_call, copied, do_then, evaluate, null, one_stmt, set,
    static_call, this, two_stmts, variable, virtual_call,
};
use jd_lists::discard;
use jd_naming::Declares;
use jd_syntax::{CodeExpr, CodeStmt, VarId};
use std::alloc::Global;

/// The arguments of a constructor.
pub(crate) struct Arguments {
    // Each is set to a temporary,
    pub(crate) sets: Result<Vec<CodeStmt>, NoMemory>,
    // which is its value.
    pub(crate) values: Result<Vec<CodeExpr>, NoMemory>,
}

// The object in the variable is allocated, and its constructor is called.
fn constructed(
    alloc: Global,
    class: u32,
    constructor: Option<u32>,
    object: &Result<VarId, NoMemory>,
    values: Result<Vec<CodeExpr>, NoMemory>,
) -> Result<Vec<CodeStmt>, NoMemory>
    ensures { (u : Name) (xs : List Expr) → GivesName object.now u → GivesExprs values xs → GivesStmts result (code.AllocObject u class ∷ plain.constructor_code constructor (plain.variable u) xs) }
{
    let first = alloc_object(copied(alloc, object), class);
    match constructor {
        None => {
            discard(values);
            one_stmt(alloc, first)
        }
        Some(m) => {
            let receiver = variable(copied(alloc, object));
            let call = constructor_call(alloc, m, receiver, values);
            two_stmts(alloc, first, evaluate(call))
        }
    }
}

/// An object of the class is created, for which this constructor runs.
pub(crate) fn created(
    alloc: Global,
    p: &mut makers::Progress,
    class: u32,
    constructor: Option<u32>,
    arguments: Arguments,
) -> Result<CodeExpr, NoMemory>
    ensures progress { (a : plain.Arguments) → Holds p.old a.progress → Holds p.new (steps_code (plain.created class constructor a)).0 }
    ensures value { (a : plain.Arguments) → Holds p.old a.progress → GivesStmts arguments.sets a.sets → GivesExprs arguments.values a.values → GivesExpr result (steps_code (plain.created class constructor a)).1 }
{
    let Arguments { sets, values } = arguments;
    let object = p.temporary(alloc, ValueType::Class(class));
    let made = constructed(alloc, class, constructor, &object, values);
    do_then(alloc, appended_stmts(sets, made), variable(object))
}

/// An array of the length is created.
pub(crate) fn created_array(
    alloc: Global,
    p: &mut makers::Progress,
    length: Result<CodeExpr, NoMemory>,
) -> Result<CodeExpr, NoMemory>
    ensures progress { (m : Made) → Holds p.old m.0 → Holds p.new (steps_code (plain.created_array m)).0 }
    ensures value { (m : Made) → Holds p.old m.0 → GivesExpr length m.1 → GivesExpr result (steps_code (plain.created_array m)).1 }
{
    let kept = p.temporary(alloc, ValueType::Int);
    let first = set(copied(alloc, &kept), length);
    let array = p.temporary(alloc, ValueType::IntArray);
    let last = makers::new_array(copied(alloc, &array), variable(kept));
    do_then(alloc, two_stmts(alloc, first, last), variable(array))
}

/// A call of a method of the class or of `this`, by its name alone.
pub(crate) fn own_call<D: Declares>(
    alloc: Global,
    d: &D,
    class: u32,
    callee: Callee,
    operands: Result<Vec<CodeExpr>, NoMemory>,
) -> Result<CodeExpr, NoMemory>
    ensures { (xs : List Expr) → GivesExprs operands xs → GivesExpr result (plain.own_call_code (D.declarations d.now) class callee (exprs_of xs)) }
{
    match callee {
        Callee::Routine(m) => {
            if d.signature(m).is_static {
                static_call(m, operands)
            } else {
                virtual_call(alloc, class, m, this(alloc), operands)
            }
        }
        Callee::Nothing | Callee::Anything => {
            discard(operands);
            null()
        }
    }
}

/// A call of a method of the class that stands before the dot.
pub(crate) fn class_call<D: Declares>(
    d: &D,
    callee: Callee,
    operands: Result<Vec<CodeExpr>, NoMemory>,
) -> Result<CodeExpr, NoMemory>
    ensures { (xs : List Expr) → GivesExprs operands xs → GivesExpr result (plain.static_call_code (D.declarations d.now) callee (exprs_of xs)) }
{
    match callee {
        Callee::Routine(m) => static_call(m, operands),
        Callee::Nothing | Callee::Anything => {
            discard(operands);
            null()
        }
    }
}

/// A call of a static method behind a value, which is kept in the variable.
pub(crate) fn call_behind(
    alloc: Global,
    v: Result<VarId, NoMemory>,
    object: Result<CodeExpr, NoMemory>,
    method: u32,
    operands: Result<Vec<CodeExpr>, NoMemory>,
) -> Result<CodeExpr, NoMemory>
    ensures { (k : Name) (x : Expr) (xs : List Expr) → GivesName v k → GivesExpr object x → GivesExprs operands xs
        → GivesExpr result (code.DoThen (stmts_of (code.Set k x ∷ [])) (code.StaticCall method (exprs_of xs))) }
{
    do_then(
        alloc,
        one_stmt(alloc, set(v, object)),
        static_call(method, operands),
    )
}
