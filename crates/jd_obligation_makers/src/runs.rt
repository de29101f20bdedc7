//! The run of a body: the values at its start, and its code.

ghost use Rattle.std.specs.Prelude.{◌≡◌, ◌++◌, ◌∷◌, [], IfOk, OnOk, Option, map, option_map};
ghost use Rattle.jd_code_makers.specs.Makers.{GivesName, GivesStmt};
ghost use Rattle.jd_model.specs.Programs.{Body};
ghost use Rattle.jd_model.specs.SpecialNames.{receiver};
ghost use Rattle.jd_oblig.specs.CaseObligations.{parameter_pair, result_name, run_code};
ghost use Rattle.jd_obligation_makers.specs.Starts.{decl_name, pairs_of, whole_start};
ghost use Rattle.jd_syntax.specs.Codes as plain;
ghost use Rattle.jd_syntax.specs.Codes.{PlainCode};
ghost use Rattle.jd_syntax.specs.CodeViews.{code_view};
ghost use Rattle.jd_syntax.specs.Names.{Name, var_view};
ghost use Rattle.jd_term.specs.Formulas.{pair_view};
ghost use Rattle.jd_term.specs.Makers.{GivesCode, GivesTerm, GivesUpdate};
ghost use Rattle.jd_term.specs.Terms.{Constant, PlainTerm};

use jd_base::{NoMemory, Sort, both, copy_bytes};
use jd_code_makers::{caught, code_in, no_stmts, one_stmt};
use jd_lists::put;
use jd_row_makers::{
    Moment, heap, heap_variable, parameter_constant, receiver, result_variable, thrown_variable,
};
use jd_syntax::{Code, CodeStmt, VarDecl, VarId};
use jd_term::{Elementary, Term, Update};
use std::alloc::Global;

// ---- the start

// Adds the value of a variable.
fn add_pair(
    to: &mut Vec<Elementary>,
    variable: Result<VarId, NoMemory>,
    value: Result<Term, NoMemory>,
) -> Result<(), NoMemory>
    ensures { (x : Name) (t : PlainTerm) → GivesName variable x → GivesTerm value t → OnOk result (map pair_view to.new.items ≡ map pair_view to.old.items ++ (x, t) ∷ []) }
{
    let (variable, value) = both(variable, value)?;
    put(to, Elementary { variable, value })
}

// The variable that is declared.
fn variable_of(alloc: Global, v: &VarDecl) -> Result<VarId, NoMemory>
    ensures { GivesName result (decl_name v.now) }
{
    let name = copy_bytes(alloc, &v.name)?;
    Ok(VarId { name, sort: v.sort })
}

// The constant of a parameter.
fn constant_of(alloc: Global, v: &VarDecl) -> Result<Term, NoMemory>
    ensures { GivesTerm result (parameter_pair (decl_name v.now)).1 }
{
    let c = parameter_constant(alloc, &v.name, v.sort)?;
    Ok(Term::Constant(c))
}

// Adds the values of parameters.
fn add_parameters(alloc: Global, to: &mut Vec<Elementary>, vars: &[VarDecl]) -> Result<(), NoMemory>
    ensures { OnOk result (map pair_view to.new.items ≡ map pair_view to.old.items ++ map parameter_pair (map decl_name vars.now)) }
{
    for v in vars {
        add_pair(to, variable_of(alloc, v), constant_of(alloc, v))?;
    }
    Ok(())
}

// Adds the value of the receiver's variable.
fn add_receiver(alloc: Global, to: &mut Vec<Elementary>, v: &VarDecl) -> Result<(), NoMemory>
    ensures { OnOk result (map pair_view to.new.items ≡ map pair_view to.old.items ++ (decl_name v.now, Constant receiver) ∷ []) }
{
    add_pair(to, variable_of(alloc, v), receiver(alloc))
}

// Adds the values of the receiver, where there is one, and of the parameters.
fn add_arguments(
    alloc: Global,
    to: &mut Vec<Elementary>,
    has_receiver: bool,
    vars: &[VarDecl],
) -> Result<(), NoMemory>
    ensures { OnOk result (map pair_view to.new.items ≡ map pair_view to.old.items ++ pairs_of has_receiver (map decl_name vars.now)) }
{
    if !has_receiver {
        return add_parameters(alloc, to, vars);
    }
    match vars.split_first() {
        None => Ok(()),
        Some((this, parameters)) => {
            add_receiver(alloc, to, this)?;
            add_parameters(alloc, to, parameters)
        }
    }
}

// The values at the start, one by one.
fn start_pairs(
    alloc: Global,
    has_receiver: bool,
    vars: &[VarDecl],
) -> Result<Vec<Elementary>, NoMemory>
    ensures { IfOk result (λ v. map pair_view v.items ≡ whole_start has_receiver (map decl_name vars.now)) }
{
    let mut pairs = Vec::new(alloc);
    add_pair(&mut pairs, heap_variable(alloc), heap(alloc, Moment::Entry))?;
    add_arguments(alloc, &mut pairs, has_receiver, vars)?;
    add_pair(&mut pairs, thrown_variable(alloc), Ok(Term::NullTerm))?;
    Ok(pairs)
}

/// The values at the start.
pub(crate) fn start(alloc: Global, has_receiver: bool, vars: &[VarDecl]) -> Result<Update, NoMemory>
    ensures { GivesUpdate result (whole_start has_receiver (map decl_name vars.now)) }
{
    let pairs = start_pairs(alloc, has_receiver, vars)?;
    Ok(Update { pairs })
}

// ---- the code

// The variable of the result, where there is one.
fn outcome(alloc: Global, sort: Option<Sort>) -> Result<Option<VarId>, NoMemory>
    ensures { IfOk result (λ v. option_map var_view v ≡ result_name sort) }
{
    match sort {
        None => Ok(None),
        Some(sort) => Ok(Some(result_variable(alloc, sort)?)),
    }
}

// The code in a frame for its result.
fn framed(
    variable: Result<Option<VarId>, NoMemory>,
    code: Result<Code, NoMemory>,
) -> Result<CodeStmt, NoMemory>
    ensures { (r : Option Name) (c : PlainCode) → IfOk variable (λ v. option_map var_view v ≡ r) → GivesCode code c → GivesStmt result (plain.Frame r c) }
{
    let (variable, code) = both(variable, code)?;
    Ok(CodeStmt::Frame(variable, code))
}

/// The body in a frame for its result, and that in a catch for what it throws.
pub(crate) fn run(alloc: Global, sort: Option<Sort>, code: &Code) -> Result<Code, NoMemory>
    ensures { (b : Body) → b.code ≡ code_view code.now → GivesCode result (run_code sort b) }
{
    let frame = framed(outcome(alloc, sort), code.copy(alloc));
    let caught = caught(
        one_stmt(alloc, frame),
        thrown_variable(alloc),
        no_stmts(alloc),
    );
    code_in(one_stmt(alloc, caught))
}
