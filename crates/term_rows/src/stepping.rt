//! Rows of steps of a rule on code below blocks and before a `finally`.

ghost use Rattle.std.specs.Prelude.{IsTrue, None};
ghost use Rattle.jd_model.specs.Sequents.{sequent_view};
ghost use Rattle.jd_syntax.specs.CodeViews.{code_view, stmt_view};
ghost use Rattle.jd_term.specs.Formulas.{formula_view};
ghost use Rattle.jd_tparse.specs.Programs.{AreSomeTables};
ghost use Rattle.jd_update_truth.specs.SortedFormulas.{SortedCode, SortedFormula, SortedSequent, SortedStmt};

use crate::sequents::sequent_of;
use crate::setting::tables;
use crate::texts::found;
use jd_base::{ClassId, MethodId, NoMemory, Sort, copy_bytes};
use jd_classes::Classes;
use jd_first_rules::FirstRules;
use jd_model::{Contracts, Place, Sequent, Side};
use jd_sequent::{Bad, Obligation, RuleSet, Step, Task};
use jd_sequent_print::print_sequent;
use jd_syntax::{Code, CodeExpr, CodeStmt};
use jd_term::Formula;
use jd_tparse::Names;
use row_text::Answer;
use std::alloc::Global;

// Whether a statement sets an integer to a literal, or has such ones in it.
#[cycle(sorted)]
fn is_sorted_stmt(s: &CodeStmt) -> bool
    ensures { IsTrue result → SortedStmt None (stmt_view s.now) }
{
    match s {
        CodeStmt::Set(x, CodeExpr::IntLiteral(_)) => x.sort == Sort::Int,
        CodeStmt::Block(_, c) => is_sorted_code(c),
        CodeStmt::Finally(c, d) => is_sorted_code(c) && is_sorted_code(d),
        _ => false,
    }
}

// The same of one statement at most.
#[cycle(sorted)]
fn is_sorted_code(c: &Code) -> bool
    ensures { IsTrue result → SortedCode None (code_view c.now) }
{
    match c.stmts.as_slice() {
        [] => true,
        [s] => is_sorted_stmt(s),
        _ => false,
    }
}

// The same of the code of a formula.
fn is_sorted(f: &Formula) -> bool
    ensures { IsTrue result → SortedFormula (formula_view f.now) }
{
    match f {
        Formula::TrueFormula => true,
        Formula::Modal(_, c, a) => is_sorted_code(c) && is_sorted(a),
        _ => false,
    }
}

// The same of a sequent of one formula, on the right.
fn are_sorted(s: &Sequent) -> bool
    ensures { IsTrue result → SortedSequent (sequent_view s.now) }
{
    match (s.left.as_slice(), s.right.as_slice()) {
        ([], [f]) => is_sorted(f),
        _ => false,
    }
}

fn contracts(alloc: Global) -> Contracts {
    Contracts {
        cases: Vec::new(alloc),
        invariants: Vec::new(alloc),
        bodies: Vec::new(alloc),
    }
}

fn obligation(alloc: Global) -> Obligation {
    Obligation {
        name: Vec::new(alloc),
        class: ClassId(10),
        method: MethodId(0),
        case: 1,
        vars: Vec::new(alloc),
        loops: Vec::new(alloc),
        consts: Vec::new(alloc),
        diamond: true,
        sequent: Sequent {
            left: Vec::new(alloc),
            right: Vec::new(alloc),
        },
    }
}

// The step of this rule on the first formula on the right.
fn step(alloc: Global, rule: &str) -> Result<Step, NoMemory> {
    let rule = copy_bytes(alloc, rule.as_bytes())?;
    let path = Vec::new(alloc);
    let (side, index) = (Side::Right, 1);
    Ok(Step {
        rule,
        place: Some(Place { side, index, path }),
        assumes: Vec::new(alloc),
        insts: Vec::new(alloc),
    })
}

fn put_premises(answer: &mut Answer, alloc: Global, names: &Names<'_>, premises: &[Sequent]) {
    if premises.is_empty() {
        return answer.put("closed");
    }
    for premise in premises {
        answer.put_made(print_sequent(alloc, premise, names));
    }
}

fn put_step(
    answer: &mut Answer,
    alloc: Global,
    names: &Names<'_>,
    premises: Result<Vec<Sequent>, Bad>,
) {
    match &premises {
        Ok(premises) => put_premises(answer, alloc, names, premises),
        Err(Bad::NoMemory) => answer.lack_memory(),
        Err(_) => answer.put("refused"),
    }
}

fn apply(
    answer: &mut Answer,
    alloc: Global,
    names: &Names<'_>,
    classes: &Classes,
    step: &Step,
    sequent: &Sequent,
)
    requires { AreSomeTables classes.now }
{
    if !are_sorted(sequent) {
        return answer.put("not sorted");
    }
    let contracts = contracts(alloc);
    let obligation = obligation(alloc);
    let task = Task::of(classes, &contracts, &obligation);
    put_step(
        answer,
        alloc,
        names,
        FirstRules.apply(alloc, &task, sequent, step),
    );
}

fn tell_step(answer: &mut Answer, alloc: Global, names: &Names<'_>, rule: &str, sequent: &Sequent) {
    match (
        &tables(alloc, b"class C { void m() {} }"),
        &step(alloc, rule),
    ) {
        (Ok(classes), Ok(step)) => apply(answer, alloc, names, classes, step, sequent),
        _ => answer.lack_memory(),
    }
}

/// What a row `step RULE TEXT` asks for: the premises of the rule on the first formula on the right of the sequent.
pub(crate) fn tell(answer: &mut Answer, alloc: Global, names: &Names<'_>, rule: &str, text: &str) {
    if let Some(sequent) = found(answer, &sequent_of(alloc, names, text)) {
        tell_step(answer, alloc, names, rule, sequent);
    }
}
