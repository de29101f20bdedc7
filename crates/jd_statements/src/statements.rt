//! Which part of a statement is refused first, and what is in scope behind it.

ghost use Rattle.std.specs.Prelude.{◌≡◌, IfErr, Ok, OnOk, map, option_map};
ghost use Rattle.std.specs.Option.{option_copied};
ghost use Rattle.jd_bodies.specs.Judgements.{only_if};
ghost use Rattle.jd_bodies.specs.Statements as plain;
ghost use Rattle.jd_bodies.specs.declared.fault.Cause.TheVariants.{BadLabel};
ghost use Rattle.jd_statements.specs.Judged.{IsStop, keeping};
ghost use Rattle.jd_syntax.specs.JavaTypes.{identifier_view, written_view};
ghost use Rattle.jd_syntax.specs.JavaTrees.{declarator_view, for_start_view, java_stmt_view, java_view};

use crate::stop::Stop;
use jd_bodies::{Cause, Fault, Place, Returns, ValueType};
use jd_judging::{
    above_parameters, arguments, creation_fits, fault, judged, or_nothing, value_of, valued,
    wanted, written_class, written_type,
};
use jd_naming::{Declares, InScope};
use jd_syntax::{Declarator, Expr, ForStart, Identifier, Stmt, StmtForm, WrittenType};
use std::alloc::Global;

/// The method in whose body something stands, and what the program declares.
#[derive(Clone, Copy)]
pub(crate) struct Method<'a, D> {
    pub(crate) alloc: Global,
    pub(crate) declared: &'a D,
    pub(crate) place: Place,
    pub(crate) returns: Returns,
}

/// One more name is in scope, which no other in scope has.
pub(crate) fn with_name<S: InScope>(
    alloc: Global,
    scope: &mut S,
    x: &Identifier,
    value: ValueType,
) -> Result<(), Stop>
    ensures ok { OnOk result (plain.with_name (identifier_view x.now) value (S.scope scope.old) ≡ Ok (S.scope scope.new)) }
    ensures err { IfErr result (IsStop (plain.with_name (identifier_view x.now) value (S.scope scope.old))) }
{
    if scope.type_of(&x.name).is_some() {
        return Err(Stop::Refused(fault(x.at, Cause::Redeclared)));
    }
    scope.enter(alloc, &x.name, value)?;
    Ok(())
}

/// A loop, perhaps behind labels.
pub(crate) fn is_loop(s: &Stmt) -> bool
    ensures { result ≡ plain.is_loop (java_stmt_view s.now) }
{
    match &s.form {
        StmtForm::While(_, _, _) | StmtForm::For(_, _, _, _, _) => true,
        StmtForm::Label(_, _, inner) => is_loop(inner),
        StmtForm::Block(_)
        | StmtForm::Empty
        | StmtForm::Local(_, _)
        | StmtForm::Evaluate(_)
        | StmtForm::If(_, _)
        | StmtForm::IfElse(_, _, _)
        | StmtForm::Break(_)
        | StmtForm::Continue(_)
        | StmtForm::Return(_)
        | StmtForm::Throw(_)
        | StmtForm::Try(_, _)
        | StmtForm::TryFinally(_, _, _)
        | StmtForm::Super(_) => false,
    }
}

/// A `break` has its target.
pub(crate) fn broken<S: InScope>(
    scope: &S,
    at: u32,
    label: Option<&Identifier>,
) -> Result<(), Fault>
    ensures { only_if (plain.may_break (S.scope scope.now) (option_map identifier_view (option_copied label.entry))) at BadLabel (S.scope scope.now) ≡ keeping (S.scope scope.now) result }
{
    let has_target = match label {
        None => scope.in_loop(),
        Some(l) => scope.label_named(&l.name).is_some(),
    };
    if has_target {
        Ok(())
    } else {
        Err(fault(at, Cause::BadLabel))
    }
}

/// A `continue` has its target.
pub(crate) fn continued<S: InScope>(
    scope: &S,
    at: u32,
    label: Option<&Identifier>,
) -> Result<(), Fault>
    ensures { only_if (plain.may_continue (S.scope scope.now) (option_map identifier_view (option_copied label.entry))) at BadLabel (S.scope scope.now) ≡ keeping (S.scope scope.now) result }
{
    let has_target = match label {
        None => scope.in_loop(),
        Some(l) => scope.label_named(&l.name) == Some(true),
    };
    if has_target {
        Ok(())
    } else {
        Err(fault(at, Cause::BadLabel))
    }
}

/// What is caught, and its name in scope in the handler.
pub(crate) fn caught<D: Declares, S: InScope>(
    m: &Method<'_, D>,
    scope: &mut S,
    c: &Identifier,
    x: &Identifier,
) -> Result<(), Stop>
    ensures ok { OnOk result (plain.caught (D.declarations m.now.declared.now) (identifier_view c.now) (identifier_view x.now) (S.scope scope.old) ≡ Ok (S.scope scope.new)) }
    ensures err { IfErr result (IsStop (plain.caught (D.declarations m.now.declared.now) (identifier_view c.now) (identifier_view x.now) (S.scope scope.old))) }
{
    let k = written_class(m.declared, c)?;
    let _throwable = wanted(m.declared, ValueType::Class(1), c.at, ValueType::Class(k))?;
    with_name(m.alloc, scope, x, ValueType::Class(k))
}

/// A part of the type.
pub(crate) fn part<D: Declares, S: InScope>(
    m: &Method<'_, D>,
    scope: &S,
    want: ValueType,
    e: &Expr,
) -> Result<(), Fault>
    ensures { plain.part (D.declarations m.now.declared.now) m.now.place want (java_view e.now) (S.scope scope.now) ≡ keeping (S.scope scope.now) result }
{
    let e = judged(m.declared, m.place, scope, e);
    let t = valued(e)?;
    let _part = wanted(m.declared, want, e.0, t)?;
    Ok(())
}

/// A part of the type, where one is written.
pub(crate) fn optional_part<D: Declares, S: InScope>(
    m: &Method<'_, D>,
    scope: &S,
    want: ValueType,
    e: Option<&Expr>,
) -> Result<(), Fault>
    ensures { plain.optional_part (D.declarations m.now.declared.now) m.now.place want (option_map java_view (option_copied e.entry)) (S.scope scope.now) ≡ keeping (S.scope scope.now) result }
{
    match e {
        None => Ok(()),
        Some(e) => part(m, scope, want, e),
    }
}

/// What is evaluated and dropped.
pub(crate) fn effect<D: Declares, S: InScope>(
    m: &Method<'_, D>,
    scope: &S,
    e: &Expr,
) -> Result<(), Fault>
    ensures { plain.effect (D.declarations m.now.declared.now) m.now.place (java_view e.now) (S.scope scope.now) ≡ keeping (S.scope scope.now) result }
{
    let _given = judged(m.declared, m.place, scope, e).1?;
    Ok(())
}

/// The same of several.
pub(crate) fn effects<D: Declares, S: InScope>(
    m: &Method<'_, D>,
    scope: &S,
    es: &[Expr],
) -> Result<(), Fault>
    ensures { plain.effects (D.declarations m.now.declared.now) m.now.place (map java_view es.now) (S.scope scope.now) ≡ keeping (S.scope scope.now) result }
{
    for e in es {
        effect(m, scope, e)?;
    }
    Ok(())
}

// The names that are declared with a type, each in scope in its own first value and behind it.
fn declared_names<D: Declares, S: InScope>(
    m: &Method<'_, D>,
    scope: &mut S,
    t: ValueType,
    xs: &[Declarator],
) -> Result<(), Stop>
    ensures ok { OnOk result (plain.declared_names (D.declarations m.now.declared.now) m.now.place t (map declarator_view xs.now) (S.scope scope.old) ≡ Ok (S.scope scope.new)) }
    ensures err { IfErr result (IsStop (plain.declared_names (D.declarations m.now.declared.now) m.now.place t (map declarator_view xs.now) (S.scope scope.old))) }
{
    for x in xs {
        with_name(m.alloc, scope, &x.name, t)?;
        optional_part(m, scope, t, x.value.as_ref())?;
    }
    Ok(())
}

/// A declaration of locals.
pub(crate) fn declared<D: Declares, S: InScope>(
    m: &Method<'_, D>,
    scope: &mut S,
    w: &WrittenType,
    xs: &[Declarator],
) -> Result<(), Stop>
    ensures ok { OnOk result (plain.declared (D.declarations m.now.declared.now) m.now.place (written_view w.now) (map declarator_view xs.now) (S.scope scope.old) ≡ Ok (S.scope scope.new)) }
    ensures err { IfErr result (IsStop (plain.declared (D.declarations m.now.declared.now) m.now.place (written_view w.now) (map declarator_view xs.now) (S.scope scope.old))) }
{
    let t = written_type(m.declared, w)?;
    declared_names(m, scope, t, xs)
}

// What stands before the first `;` of a `for`.
fn for_start<D: Declares, S: InScope>(
    m: &Method<'_, D>,
    scope: &mut S,
    start: &ForStart,
) -> Result<(), Stop>
    ensures ok { OnOk result (plain.for_start (D.declarations m.now.declared.now) m.now.place (for_start_view start.now) (S.scope scope.old) ≡ Ok (S.scope scope.new)) }
    ensures err { IfErr result (IsStop (plain.for_start (D.declarations m.now.declared.now) m.now.place (for_start_view start.now) (S.scope scope.old))) }
{
    match start {
        ForStart::Declared(w, xs) => declared(m, scope, w, xs),
        ForStart::Evaluated(es) => {
            effects(m, scope, es)?;
            Ok(())
        }
    }
}

/// What stands before the body of a `for`.
pub(crate) fn for_head<D: Declares, S: InScope>(
    m: &Method<'_, D>,
    scope: &mut S,
    start: &ForStart,
    c: Option<&Expr>,
    update: &[Expr],
) -> Result<(), Stop>
    ensures ok { OnOk result (plain.for_head (D.declarations m.now.declared.now) m.now.place (for_start_view start.now) (option_map java_view (option_copied c.entry)) (map java_view update.now) (S.scope scope.old) ≡ Ok (S.scope scope.new)) }
    ensures err { IfErr result (IsStop (plain.for_head (D.declarations m.now.declared.now) m.now.place (for_start_view start.now) (option_map java_view (option_copied c.entry)) (map java_view update.now) (S.scope scope.old))) }
{
    for_start(m, scope, start)?;
    optional_part(m, scope, ValueType::Boolean, c)?;
    effects(m, scope, update)?;
    scope.enter_loop();
    Ok(())
}

/// What stands before the body of a `while`.
pub(crate) fn while_head<D: Declares, S: InScope>(
    m: &Method<'_, D>,
    scope: &mut S,
    c: &Expr,
) -> Result<(), Stop>
    ensures ok { OnOk result (plain.while_head (D.declarations m.now.declared.now) m.now.place (java_view c.now) (S.scope scope.old) ≡ Ok (S.scope scope.new)) }
    ensures err { IfErr result (IsStop (plain.while_head (D.declarations m.now.declared.now) m.now.place (java_view c.now) (S.scope scope.old))) }
{
    part(m, scope, ValueType::Boolean, c)?;
    scope.enter_loop();
    Ok(())
}

/// What `return` gives.
pub(crate) fn returned<D: Declares, S: InScope>(
    m: &Method<'_, D>,
    scope: &S,
    at: u32,
    e: Option<&Expr>,
) -> Result<(), Fault>
    ensures { plain.returned (D.declarations m.now.declared.now) m.now.place m.now.returns at (option_map java_view (option_copied e.entry)) (S.scope scope.now) ≡ keeping (S.scope scope.now) result }
{
    match (e, m.returns) {
        (None, Returns::Nothing) => Ok(()),
        (None, Returns::Value(_)) => Err(fault(at, Cause::TypeMismatch)),
        (Some(e), _) => {
            let e = judged(m.declared, m.place, scope, e);
            let t = valued(e)?;
            match m.returns {
                Returns::Nothing => Err(fault(at, Cause::TypeMismatch)),
                Returns::Value(want) => {
                    let _value = wanted(m.declared, want, e.0, t)?;
                    Ok(())
                }
            }
        }
    }
}

/// The arguments of the constructor that runs for what the class extends.
pub(crate) fn constructed<D: Declares, S: InScope>(
    m: &Method<'_, D>,
    scope: &S,
    at: u32,
    es: &[Expr],
) -> Result<(), Fault>
    ensures { plain.constructed (D.declarations m.now.declared.now) m.now.place at (map java_view es.now) (S.scope scope.now) ≡ keeping (S.scope scope.now) result }
{
    let parameters = above_parameters(m.declared, m.declared.parent(m.place.class));
    let fit = arguments(m.declared, m.place, scope, es, or_nothing(parameters))?;
    let _fits = creation_fits(at, parameters, value_of(ValueType::Boolean), fit)?;
    Ok(())
}
