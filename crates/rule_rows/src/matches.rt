//! What rows find at places, and what the goals of an example say then.

ghost use Rattle.std.specs.Prelude.{◌≡◌, IfOk, map};
ghost use Rattle.jd_schema_trees.specs.TacletViews.{taclet};
ghost use Rattle.jd_table_steps.specs.Tables.{rule_rows};
ghost use Rattle.jd_taclets.specs.Taclets.{IsFind};
ghost use Rattle.rule_rows.specs.Examples.{turned_goals};

use jd_base::NoMemory;
use jd_model::{Place, Sequent};
use jd_row_data::Connective::And;
use jd_row_data::FormulaData::{self, AnyFormula, Connected};
use jd_row_data::GoalData::{self, Goal};
use jd_row_data::RowData::{self, LeftRow};
use jd_row_data::row_of;
use jd_schema::{GoalParts, Insts, MachineClasses, Part, Taclet, instantiate, match_at};
use jd_sequent::{OfTask, Step, Task};
use jd_sequent_print::print_sequent;
use jd_taclet_rules::{TacletRule, machine_classes, row_named};
use jd_tparse::Names;
use row_text::Answer;
use std::alloc::Global;

const LEFT: FormulaData = AnyFormula(b"left");

const RIGHT: FormulaData = AnyFormula(b"right");

// A conjunction on the left: its second part there, or its first on the right.
const TURNED: RowData = LeftRow(
    b"turned",
    Connected(And, &LEFT, &RIGHT),
    &[],
    &[],
    &[],
    &[Goal(&[RIGHT], &[]), Goal(&[], &[LEFT])],
);

fn example(alloc: Global) -> Result<Taclet, NoMemory>
    ensures find { IfOk result (λ r. IsFind (taclet r).find) }
    ensures goals { IfOk result (λ r. (taclet r).goals ≡ turned_goals) }
{
    row_of(alloc, &TURNED)
}

fn kind_of(part: &Part) -> &'static str {
    match part {
        Part::Formula(_) => "formula",
        Part::Term(_) => "term",
        Part::Literal(_) => "literal",
        Part::Locations(_) => "locations",
        Part::Kind(_) => "kind",
        Part::Sort(_) => "sort",
        Part::Name(_) => "name",
        Part::Result(_) => "result",
        Part::Field(_) => "field",
        Part::Class(_) => "class",
        Part::Label(_) => "label",
        Part::Code(_) => "code",
        Part::Return(_) => "return",
        Part::Simple(_) => "simple",
        Part::Modality(_) => "modality",
        Part::Context(_, _) => "context",
    }
}

// The variables, each with the kind of its part.
fn put_insts(answer: &mut Answer, insts: &Insts) {
    answer.put("found");
    for (name, part) in &insts.pairs {
        answer.put(" ");
        answer.put_bytes(name);
        answer.put(" ");
        answer.put(kind_of(part));
    }
}

fn put_match(answer: &mut Answer, found: &Result<Option<Insts>, NoMemory>) {
    match found {
        Ok(Some(insts)) => put_insts(answer, insts),
        Ok(None) => answer.put("none"),
        Err(NoMemory) => answer.lack_memory(),
    }
}

// What the goals add, with ` / ` before each.
fn put_goals(
    answer: &mut Answer,
    alloc: Global,
    names: &Names<'_>,
    goals: &Result<Vec<GoalParts>, NoMemory>,
) {
    match goals {
        Ok(goals) => for goal in goals {
            answer.put(" / ");
            answer.put_made(print_sequent(alloc, &goal.added, names));
        },
        Err(NoMemory) => answer.lack_memory(),
    }
}

// What the goals add where the variables stand for these parts.
fn put_instances(
    answer: &mut Answer,
    alloc: Global,
    names: &Names<'_>,
    machine: MachineClasses,
    row: &Taclet,
    insts: &Insts,
)
    requires { (taclet row.now).goals ≡ turned_goals }
{
    put_goals(
        answer,
        alloc,
        names,
        &instantiate(alloc, row, insts, machine),
    );
}

fn put_example(
    answer: &mut Answer,
    alloc: Global,
    names: &Names<'_>,
    machine: MachineClasses,
    row: &Taclet,
    found: &Result<Option<Insts>, NoMemory>,
)
    requires { (taclet row.now).goals ≡ turned_goals }
{
    put_match(answer, found);
    if let Ok(Some(insts)) = found {
        put_instances(answer, alloc, names, machine, row, insts);
    }
}

/// What the example's row finds at the place, and what its goals add.
pub(crate) fn tell_example(
    answer: &mut Answer,
    alloc: Global,
    task: &Task<'_>,
    sequent: &Sequent,
    place: &Place,
) {
    match &example(alloc) {
        Ok(row) => put_example(
            answer,
            alloc,
            &Names::of(task),
            machine_classes(task),
            row,
            &match_at(alloc, row, sequent, place),
        ),
        Err(NoMemory) => answer.lack_memory(),
    }
}

// What the row of the name finds at the place, where there is one.
fn found_by(
    alloc: Global,
    rules: &TacletRule,
    name: &[u8],
    sequent: &Sequent,
    place: &Place,
) -> Option<Result<Option<Insts>, NoMemory>>
    requires { map taclet rules.now.rows.items ≡ rule_rows }
{
    match row_named(&rules.rows, name) {
        Some(row) => Some(match_at(alloc, row, sequent, place)),
        None => None,
    }
}

/// What the row of the step's name finds at the step's place; the example's, where no row has the name.
pub(crate) fn tell_match(
    answer: &mut Answer,
    alloc: Global,
    task: &Task<'_>,
    rules: &TacletRule,
    sequent: &Sequent,
    step: &Step,
)
    requires { map taclet rules.now.rows.items ≡ rule_rows }
{
    let Some(place) = &step.place else {
        return answer.put("no place")
    };
    match &found_by(alloc, rules, &step.rule, sequent, place) {
        Some(found) => put_match(answer, found),
        None => tell_example(answer, alloc, task, sequent, place),
    }
}
