ghost use Rattle.std.specs.Prelude.{◌≡◌, IfOk, option_map, None, Some};
ghost use Rattle.jd_syntax.specs.Names.{var_view};
ghost use Rattle.jd_syntax.specs.Codes.{Done, Set};
ghost use Rattle.jd_syntax.specs.CodeViews.{expr_view, stmt_view, code_view};
ghost use Rattle.jd_term.specs.TermViews.{term_view};
ghost use Rattle.jd_model.specs.Contexts.{one};
ghost use Rattle.jd_first_steps.specs.Rewrites.{simple_term};
ghost use Rattle.jd_first_rules.specs.Focus.{at_stmt, at_focus, within, behind_first, followed, in_block, in_frame, in_catch, in_finally, return_effect, nothing_effect};
ghost use Rattle.jd_first_rules.specs.Effects.{effect_view};

use crate::parts::{alone, chained, no_statement};
use jd_base::NoMemory;
use jd_first_steps::FirstRule;
use jd_syntax::{Code, CodeExpr, CodeStmt, VarId};
use jd_term::{Elementary, Term};
use std::alloc::Global;

/// What a rule makes of the code of a modality.
#[derive(Drop)]
pub struct Effect {
    /// The update before the modality, where there is one.
    pub update: Option<Elementary>,
    /// The modality's code.
    pub code: Code,
}

/// The simple expression as a term; `None` for all others.
pub fn simple(alloc: Global, expr: &CodeExpr) -> Result<Option<Term>, NoMemory>
    ensures { IfOk result (λ o. option_map term_view o ≡ simple_term (expr_view expr.now)) }
{
    match expr {
        CodeExpr::IntLiteral(n) => Ok(Some(Term::Number(i128::from(*n)))),
        CodeExpr::BoolLiteral(b) => Ok(Some(Term::Boolean(*b))),
        CodeExpr::NullLiteral => Ok(Some(Term::NullTerm)),
        CodeExpr::Variable(x) => {
            let x = x.copy(alloc)?;
            Ok(Some(Term::ProgramVariable(x)))
        }
        _ => Ok(None),
    }
}

// An effect without an update.
fn plain(code: Code) -> Effect
    ensures { effect_view result ≡ record { update = None; code = code_view code } }
{
    Effect { update: None, code }
}

// What `setSimple` makes of an assignment.
fn assigned(alloc: Global, x: &VarId, value: &CodeExpr) -> Result<Option<Effect>, NoMemory>
    ensures { IfOk result
        (λ o. option_map effect_view o ≡ option_map (λ t. record { update = Some (var_view x.now, t); code = Done }) (simple_term (expr_view value.now))) }
{
    match simple(alloc, value)? {
        None => Ok(None),
        Some(value) => {
            let variable = x.copy(alloc)?;
            Ok(Some(Effect {
                update: Some(Elementary { variable, value }),
                code: no_statement(alloc),
            }))
        }
    }
}

// What `frameReturn` makes of a `return` in its frame.
fn returned(alloc: Global, variable: &VarId, value: &CodeExpr) -> Result<Option<Effect>, NoMemory>
    ensures { IfOk result
        (λ o. option_map effect_view o ≡ option_map (λ t. record { update = None; code = one (Set (var_view variable.now) (expr_view value.now)) }) (simple_term (expr_view value.now))) }
{
    match simple(alloc, value)? {
        None => Ok(None),
        Some(_term) => {
            let variable = variable.copy(alloc)?;
            let value = value.copy(alloc)?;
            let code = alone(alloc, CodeStmt::Set(variable, value))?;
            Ok(Some(plain(code)))
        }
    }
}

// What `frameReturn` makes of a frame's body.
fn at_return(alloc: Global, variable: &VarId, body: &Code) -> Result<Option<Effect>, NoMemory>
    ensures { IfOk result
        (λ o. option_map effect_view o ≡ return_effect (var_view variable.now) (code_view body.now)) }
{
    match body.stmts.first() {
        Some(CodeStmt::Return(value)) => returned(alloc, variable, value),
        _ => Ok(None),
    }
}

// What `catchEmpty` makes of a catch's body.
fn at_nothing(alloc: Global, body: &Code) -> Option<Effect>
    ensures { option_map effect_view result ≡ nothing_effect (code_view body.now) }
{
    match body.stmts.first() {
        None => Some(plain(no_statement(alloc))),
        Some(_stmt) => None,
    }
}

// What a rule makes of a statement alone.
fn at_statement(alloc: Global, rule: FirstRule, stmt: &CodeStmt) -> Result<Option<Effect>, NoMemory>
    ensures { IfOk result (λ o. option_map effect_view o ≡ at_stmt rule (stmt_view stmt.now)) }
{
    match (rule, stmt) {
        (FirstRule::SetSimple, CodeStmt::Set(x, value)) => assigned(alloc, x, value),
        (FirstRule::FrameReturn, CodeStmt::Frame(Some(r), body)) => at_return(alloc, r, body),
        (FirstRule::CatchEmpty, CodeStmt::Catch(body, _, _)) => Ok(at_nothing(alloc, body)),
        _ => Ok(None),
    }
}

// The effect in a block.
fn blocked(alloc: Global, label: u32, effect: Effect) -> Result<Effect, NoMemory>
    ensures { IfOk result (λ e. effect_view e ≡ in_block label (effect_view effect)) }
{
    let update = effect.update;
    let code = alone(alloc, CodeStmt::Block(label, effect.code))?;
    Ok(Effect { update, code })
}

// The effect in a frame.
fn framed(alloc: Global, r: &Option<VarId>, effect: Effect) -> Result<Effect, NoMemory>
    ensures { IfOk result (λ e. effect_view e ≡ in_frame (option_map var_view r.now) (effect_view effect)) }
{
    let r = copy_result(alloc, r)?;
    let update = effect.update;
    let code = alone(alloc, CodeStmt::Frame(r, effect.code))?;
    Ok(Effect { update, code })
}

fn copy_result(alloc: Global, r: &Option<VarId>) -> Result<Option<VarId>, NoMemory>
    ensures { IfOk result (λ o. option_map var_view o ≡ option_map var_view r.now) }
{
    match r {
        None => Ok(None),
        Some(v) => Ok(Some(v.copy(alloc)?)),
    }
}

// The effect in a catch.
fn caught(alloc: Global, x: &VarId, handler: &Code, effect: Effect) -> Result<Effect, NoMemory>
    ensures { IfOk result (λ e. effect_view e ≡ in_catch (var_view x.now) (code_view handler.now) (effect_view effect)) }
{
    let x = x.copy(alloc)?;
    let handler = handler.copy(alloc)?;
    let update = effect.update;
    let code = alone(alloc, CodeStmt::Catch(effect.code, x, handler))?;
    Ok(Effect { update, code })
}

// The effect in a statement with a finally.
fn before_finally(alloc: Global, last: &Code, effect: Effect) -> Result<Effect, NoMemory>
    ensures { IfOk result (λ e. effect_view e ≡ in_finally (code_view last.now) (effect_view effect)) }
{
    let last = last.copy(alloc)?;
    let update = effect.update;
    let code = alone(alloc, CodeStmt::Finally(effect.code, last))?;
    Ok(Effect { update, code })
}

// The effect before the other statements of a code.
fn before_rest(alloc: Global, effect: Effect, whole: &Code) -> Result<Effect, NoMemory>
    ensures { IfOk result (λ e. effect_view e ≡ followed (behind_first (code_view whole.now)) (effect_view effect)) }
{
    let update = effect.update;
    let code = chained(alloc, effect.code, whole)?;
    Ok(Effect { update, code })
}

/// What a rule makes of the code at the outermost focus that it matches; `None` where it matches
/// none.
#[cycle(focus)]
pub fn focused(alloc: Global, code: &Code, rule: FirstRule) -> Result<Option<Effect>, NoMemory>
    ensures { IfOk result (λ o. option_map effect_view o ≡ at_focus rule (code_view code.now)) }
{
    let Some(first) = code.stmts.first() else {
        return Ok(None)
    };
    let here = at_statement(alloc, rule, first)?;
    let found = match here {
        Some(effect) => Some(effect),
        None => inside(alloc, first, rule)?,
    };
    match found {
        None => Ok(None),
        Some(effect) => Ok(Some(before_rest(alloc, effect, code)?)),
    }
}

// What a rule makes of the code at a focus inside a statement.
#[cycle(focus)]
fn inside(alloc: Global, stmt: &CodeStmt, rule: FirstRule) -> Result<Option<Effect>, NoMemory>
    ensures { IfOk result (λ o. option_map effect_view o ≡ within rule (stmt_view stmt.now)) }
{
    match stmt {
        CodeStmt::Block(label, code) => match focused(alloc, code, rule)? {
            None => Ok(None),
            Some(effect) => Ok(Some(blocked(alloc, *label, effect)?)),
        },
        CodeStmt::Frame(r, code) => match focused(alloc, code, rule)? {
            None => Ok(None),
            Some(effect) => Ok(Some(framed(alloc, r, effect)?)),
        },
        CodeStmt::Catch(code, x, handler) => match focused(alloc, code, rule)? {
            None => Ok(None),
            Some(effect) => Ok(Some(caught(alloc, x, handler, effect)?)),
        },
        CodeStmt::Finally(code, last) => match focused(alloc, code, rule)? {
            None => Ok(None),
            Some(effect) => Ok(Some(before_finally(alloc, last, effect)?)),
        },
        _ => Ok(None),
    }
}
