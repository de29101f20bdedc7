//! Which names a method's parts bring into scope.

ghost use Rattle.std.specs.Prelude.{◌≡◌, ◌∷◌, OnOk, map, true};
ghost use Rattle.jd_bodies.specs.Declarations.{class_type};
ghost use Rattle.jd_jml_judging.specs.Visible.{locals_of};
ghost use Rattle.jd_specifications.specs.Refused as plain;
ghost use Rattle.jd_syntax.specs.JavaTypes.{identifier_view};
ghost use Rattle.jd_syntax.specs.JavaTrees.{declarator_view, for_start_view, java_stmt_view, parameter_view};

use jd_base::NoMemory;
use jd_bodies::{Place, ValueType};
use jd_jml_judging::{Known, MethodNames};
use jd_judging::type_by;
use jd_naming::Declares;
use jd_syntax::{Declarator, ForStart, Identifier, Parameter, Stmt, StmtForm};
use std::alloc::Global;

/// The method in whose body something stands, and what the program declares.
#[derive(Clone, Copy)]
pub(crate) struct Method<'a, D> {
    pub(crate) alloc: Global,
    pub(crate) declared: &'a D,
    pub(crate) place: Place,
}

// A local of the type.
fn local(value: ValueType) -> Known
    ensures { result ≡ record { is_local = true; value = value } }
{
    Known {
        is_local: true,
        value,
    }
}

/// The names that are declared with a type.
pub(crate) fn enter_declared<D: Declares>(
    m: &Method<'_, D>,
    names: &mut MethodNames,
    value: ValueType,
    xs: &[Declarator],
) -> Result<(), NoMemory>
    ensures { OnOk result (locals_of names.new ≡ plain.declared_names (D.declarations m.now.declared.now) value (map declarator_view xs.now) (locals_of names.old)) }
{
    for x in xs {
        names.enter(m.alloc, &x.name.name, local(value))?;
    }
    Ok(())
}

/// Those that a `for` declares.
pub(crate) fn enter_for<D: Declares>(
    m: &Method<'_, D>,
    names: &mut MethodNames,
    start: &ForStart,
) -> Result<(), NoMemory>
    ensures { OnOk result (locals_of names.new ≡ plain.for_locals (D.declarations m.now.declared.now) (for_start_view start.now) (locals_of names.old)) }
{
    match start {
        ForStart::Declared(w, xs) => {
            let value = type_by(m.declared, &w.written);
            enter_declared(m, names, value, xs)
        }
        ForStart::Evaluated(_) => Ok(()),
    }
}

/// Those that a loop sees, perhaps behind labels.
pub(crate) fn enter_loop<D: Declares>(
    m: &Method<'_, D>,
    names: &mut MethodNames,
    s: &Stmt,
) -> Result<(), NoMemory>
    ensures { OnOk result (locals_of names.new ≡ plain.loop_locals (D.declarations m.now.declared.now) (java_stmt_view s.now) (locals_of names.old)) }
{
    match &s.form {
        StmtForm::For(_, start, _, _, _) => enter_for(m, names, start),
        StmtForm::Label(_, _, inner) => enter_loop(m, names, inner),
        StmtForm::Block(_)
        | StmtForm::Empty
        | StmtForm::Local(_, _)
        | StmtForm::Evaluate(_)
        | StmtForm::If(_, _)
        | StmtForm::IfElse(_, _, _)
        | StmtForm::While(_, _, _)
        | StmtForm::Break(_)
        | StmtForm::Continue(_)
        | StmtForm::Return(_)
        | StmtForm::Throw(_)
        | StmtForm::Try(_, _)
        | StmtForm::TryFinally(_, _, _)
        | StmtForm::Super(_) => Ok(()),
    }
}

// The class of what is caught; bodies are refused before.
fn class_value(class: Option<u32>) -> ValueType
    ensures { result ≡ class_type class }
{
    match class {
        None => ValueType::Missing,
        Some(c) => ValueType::Class(c),
    }
}

/// The name of what is caught.
pub(crate) fn enter_caught<D: Declares>(
    m: &Method<'_, D>,
    names: &mut MethodNames,
    c: &Identifier,
    x: &Identifier,
) -> Result<(), NoMemory>
    ensures { OnOk result (locals_of names.new ≡ plain.local (D.declarations m.now.declared.now) (identifier_view x.now) (class_type ((D.declarations m.now.declared.now).class_named (identifier_view c.now).name)) ∷ locals_of names.old) }
{
    let value = class_value(m.declared.class_named(&c.name));
    names.enter(m.alloc, &x.name, local(value))
}

/// The parameters.
pub(crate) fn enter_parameters<D: Declares>(
    alloc: Global,
    d: &D,
    names: &mut MethodNames,
    parameters: &[Parameter],
) -> Result<(), NoMemory>
    ensures { OnOk result (locals_of names.new ≡ plain.parameters (D.declarations d.now) (map parameter_view parameters.now) (locals_of names.old)) }
{
    for x in parameters {
        let value = type_by(d, &x.ty.written);
        let known = Known {
            is_local: false,
            value,
        };
        names.enter(alloc, &x.name.name, known)?;
    }
    Ok(())
}
