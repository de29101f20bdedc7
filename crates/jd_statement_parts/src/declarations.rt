//! Declarations of locals, and what a `for` begins with (JLS 14.4, 14.14).

ghost use Rattle.std.specs.Prelude.{◌∷◌, List, map};
ghost use Rattle.jd_bodies.specs.Bodies as plain;
ghost use Rattle.jd_bodies.specs.Scopes.{Local};
ghost use Rattle.jd_bodies.specs.Variables.{Progress};
ghost use Rattle.jd_code_makers.specs.Held.{Works};
ghost use Rattle.jd_code_makers.specs.Makers.{GivesStmts};
ghost use Rattle.jd_statement_parts.specs.Standing.{Stands, declared_one, local_of};
ghost use Rattle.jd_syntax.specs.JavaTrees.{declarator_view, for_start_view, java_view};
ghost use Rattle.jd_syntax.specs.JavaTypes.{written_view};

use crate::parts::{effect_code, enter, initial_code};
use jd_base::NoMemory;
use jd_bodies::ValueType;
use jd_code_makers as makers;
use jd_code_makers::{appended_stmts, no_stmts};
use jd_expression_code::Body;
use jd_judging::type_by;
use jd_naming::{Declares, InScope};
use jd_syntax::{CodeStmt, Declarator, Expr, ForStart, WrittenType};

// A local of a type, which is in scope in its own first value.
fn declare_one<D: Declares, S: InScope>(
    m: &Body<'_, D>,
    scope: &mut S,
    p: &mut makers::Progress,
    t: ValueType,
    x: &Declarator,
) -> Result<Vec<CodeStmt>, NoMemory>
    ensures stands { (q : Progress) (ls : List Local) → Stands p.old (S.scope scope.old).locals q ls → Stands p.new (S.scope scope.new).locals (declared_one (D.declarations m.now.declared.now) m.now.place t (declarator_view x.now) ls q).0 (local_of (declarator_view x.now).name.name t ∷ ls) }
    ensures stmts { (q : Progress) (ls : List Local) → Stands p.old (S.scope scope.old).locals q ls → GivesStmts result (declared_one (D.declarations m.now.declared.now) m.now.place t (declarator_view x.now) ls q).1 }
    ensures works { Works p.new → Works p.old }
{
    enter(m, scope, p, &x.name.name, t);
    initial_code(m, scope, p, x, t)
}

// The locals of a type, each in scope in its own first value and behind it.
fn declared_of<D: Declares, S: InScope>(
    m: &Body<'_, D>,
    scope: &mut S,
    p: &mut makers::Progress,
    t: ValueType,
    xs: &[Declarator],
) -> Result<Vec<CodeStmt>, NoMemory>
    ensures stands { (q : Progress) (ls : List Local) → Stands p.old (S.scope scope.old).locals q ls → Stands p.new (S.scope scope.new).locals (plain.declared_lines (D.declarations m.now.declared.now) m.now.place t (map declarator_view xs.now) ls q).lines.0 (plain.declared_lines (D.declarations m.now.declared.now) m.now.place t (map declarator_view xs.now) ls q).locals }
    ensures stmts { (q : Progress) (ls : List Local) → Stands p.old (S.scope scope.old).locals q ls → GivesStmts result (plain.declared_lines (D.declarations m.now.declared.now) m.now.place t (map declarator_view xs.now) ls q).lines.1 }
    ensures works { Works p.new → Works p.old }
{
    let mut made = no_stmts(m.alloc);
    for x in xs {
        made = appended_stmts(made, declare_one(m, scope, p, t, x));
    }
    made
}

/// A declaration of locals (JLS 14.4).
///
/// # Errors
///
/// `NoMemory`.
pub fn declared<D: Declares, S: InScope>(
    m: &Body<'_, D>,
    scope: &mut S,
    p: &mut makers::Progress,
    w: &WrittenType,
    xs: &[Declarator],
) -> Result<Vec<CodeStmt>, NoMemory>
    ensures stands { (q : Progress) (ls : List Local) → Stands p.old (S.scope scope.old).locals q ls → Stands p.new (S.scope scope.new).locals (plain.declaration (D.declarations m.now.declared.now) m.now.place (written_view w.now) (map declarator_view xs.now) ls q).lines.0 (plain.declaration (D.declarations m.now.declared.now) m.now.place (written_view w.now) (map declarator_view xs.now) ls q).locals }
    ensures stmts { (q : Progress) (ls : List Local) → Stands p.old (S.scope scope.old).locals q ls → GivesStmts result (plain.declaration (D.declarations m.now.declared.now) m.now.place (written_view w.now) (map declarator_view xs.now) ls q).lines.1 }
    ensures works { Works p.new → Works p.old }
{
    let t = type_by(m.declared, &w.written);
    declared_of(m, scope, p, t, xs)
}

/// Expressions that stand as statements, one behind the other.
///
/// # Errors
///
/// `NoMemory`.
pub fn effects<D: Declares, S: InScope>(
    m: &Body<'_, D>,
    scope: &S,
    p: &mut makers::Progress,
    es: &[Expr],
) -> Result<Vec<CodeStmt>, NoMemory>
    ensures stands { (q : Progress) (ls : List Local) → Stands p.old (S.scope scope.now).locals q ls → Stands p.new (S.scope scope.now).locals (plain.effects_lines (D.declarations m.now.declared.now) m.now.place ls (map java_view es.now) q).0 ls }
    ensures stmts { (q : Progress) (ls : List Local) → Stands p.old (S.scope scope.now).locals q ls → GivesStmts result (plain.effects_lines (D.declarations m.now.declared.now) m.now.place ls (map java_view es.now) q).1 }
    ensures works { Works p.new → Works p.old }
{
    let mut made = no_stmts(m.alloc);
    for e in es {
        made = appended_stmts(made, effect_code(m, scope, p, e));
    }
    made
}

/// What a `for` begins with (JLS 14.14.1).
///
/// # Errors
///
/// `NoMemory`.
pub fn started<D: Declares, S: InScope>(
    m: &Body<'_, D>,
    scope: &mut S,
    p: &mut makers::Progress,
    start: &ForStart,
) -> Result<Vec<CodeStmt>, NoMemory>
    ensures stands { (q : Progress) (ls : List Local) → Stands p.old (S.scope scope.old).locals q ls → Stands p.new (S.scope scope.new).locals (plain.start (D.declarations m.now.declared.now) m.now.place (for_start_view start.now) ls q).lines.0 (plain.start (D.declarations m.now.declared.now) m.now.place (for_start_view start.now) ls q).locals }
    ensures stmts { (q : Progress) (ls : List Local) → Stands p.old (S.scope scope.old).locals q ls → GivesStmts result (plain.start (D.declarations m.now.declared.now) m.now.place (for_start_view start.now) ls q).lines.1 }
    ensures works { Works p.new → Works p.old }
{
    match start {
        ForStart::Declared(w, xs) => declared(m, scope, p, w, xs),
        ForStart::Evaluated(es) => effects(m, scope, p, es),
    }
}
