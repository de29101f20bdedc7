//! The rows that a table holds.

ghost use Rattle.std.specs.Prelude.{◌≡◌, ◌++◌, ◌∷◌, [], IfOk, List, Option, Some, false, map};
ghost use Rattle.jd_schema_trees.specs.TacletViews.{goal, taclet, taclet_kind};
ghost use Rattle.jd_taclets.specs.Taclets as plain;
ghost use Rattle.jd_taclets.specs.Taclets.{FormulaFind, TermFind};
ghost use Rattle.jd_row_data.specs.Data.{assumed_data, condition_data, formula_data, given_data, row_data, term_data};
ghost use Rattle.jd_row_data.specs.Gives.{GivesGoals, GivesPattern};
ghost use Rattle.jd_row_data.specs.Tables.{GivesRow, GivesRows};

use crate::data::{ConditionData, FormulaData, GivenData, RowData, TermData};
use crate::formulas::formula;
use crate::growing::{no_items, with_row};
use crate::lists::{assumptions, conditions, goals, variables};
use crate::terms::term;
use jd_base::{NoMemory, both, copy_bytes};
use jd_lists::{appended, with};
use jd_model::Side;
use jd_schema_trees::{Pattern, Taclet, TacletGoal, TacletKind};
use std::alloc::Global;

fn formula_find(alloc: Global, a: &FormulaData) -> Result<Option<Pattern>, NoMemory>
    ensures { GivesPattern result (Some (FormulaFind (formula_data a.now))) }
{
    Ok(Some(Pattern::Formula(formula(alloc, a)?)))
}

fn term_find(alloc: Global, t: &TermData) -> Result<Option<Pattern>, NoMemory>
    ensures { GivesPattern result (Some (TermFind (term_data t.now))) }
{
    Ok(Some(Pattern::Term(term(alloc, t)?)))
}

// The premise in which this stands in the place of what was found.
fn replaced(
    alloc: Global,
    replace: Result<Option<Pattern>, NoMemory>,
) -> Result<TacletGoal, NoMemory>
    ensures { (p : Option plain.Pattern) → GivesPattern replace p → IfOk result (λ n. goal n ≡ (record { keep = false; replace = p; left = []; right = [] })) }
{
    let replace = replace?;
    Ok(TacletGoal {
        keep: false,
        replace,
        left: Vec::new(alloc),
        right: Vec::new(alloc),
    })
}

fn one_goal(
    alloc: Global,
    replace: Result<Option<Pattern>, NoMemory>,
) -> Result<Vec<TacletGoal>, NoMemory>
    ensures { (p : Option plain.Pattern) → GivesPattern replace p → GivesGoals result ((record { keep = false; replace = p; left = []; right = [] }) ∷ []) }
{
    let goal = replaced(alloc, replace)?;
    with(Vec::new(alloc), goal)
}

// What a row asks for beside what is found.
#[derive(Drop)]
struct Asked<'d> {
    assumes: &'d [(Side, FormulaData)],
    given: &'d [GivenData],
    conds: &'d [ConditionData],
}

// The row of these parts.
fn whole(
    alloc: Global,
    name: &[u8],
    kind: TacletKind,
    find: Result<Option<Pattern>, NoMemory>,
    asked: &Asked<'_>,
    goals: Result<Vec<TacletGoal>, NoMemory>,
) -> Result<Taclet, NoMemory>
    ensures { (p : Option plain.Pattern) (l : List plain.TacletGoal) → GivesPattern find p → GivesGoals goals l
        → IfOk result (λ r. taclet r ≡ (record { name = name.now; kind = taclet_kind kind; find = p; assumes = map assumed_data asked.now.assumes.now; insts = map (given_data asked.now.given.now) asked.now.given.now; conds = map condition_data asked.now.conds.now; goals = l })) }
{
    let given = asked.given;
    let found = both(find, assumptions(alloc, asked.assumes));
    let told = both(
        variables(alloc, given),
        conditions(alloc, given, asked.conds),
    );
    let named = both(copy_bytes(alloc, name), goals);
    let ((find, assumes), ((insts, conds), (name, goals))) = both(found, both(told, named))?;
    Ok(Taclet {
        name,
        kind,
        find,
        assumes,
        insts,
        conds,
        goals,
    })
}

/// The row that the data says.
///
/// # Errors
///
/// `NoMemory` if memory runs out.
pub fn row_of(alloc: Global, r: &RowData) -> Result<Taclet, NoMemory>
    ensures { GivesRow result (row_data r.now) }
{
    match r {
        RowData::LeftRow(n, f, a, g, c, l) => whole(
            alloc,
            n,
            TacletKind::Left,
            formula_find(alloc, f),
            &Asked {
                assumes: a,
                given: g,
                conds: c,
            },
            goals(alloc, l),
        ),
        RowData::RightRow(n, f, a, g, c, l) => whole(
            alloc,
            n,
            TacletKind::Right,
            formula_find(alloc, f),
            &Asked {
                assumes: a,
                given: g,
                conds: c,
            },
            goals(alloc, l),
        ),
        RowData::FreeRow(n, g, c, l) => whole(
            alloc,
            n,
            TacletKind::Free,
            Ok(None),
            &Asked {
                assumes: &[],
                given: g,
                conds: c,
            },
            goals(alloc, l),
        ),
        RowData::FormulaRow(n, f, a, g, c, r) => whole(
            alloc,
            n,
            TacletKind::Formula,
            formula_find(alloc, f),
            &Asked {
                assumes: a,
                given: g,
                conds: c,
            },
            one_goal(alloc, formula_find(alloc, r)),
        ),
        RowData::TermRow(n, f, a, c, r) => whole(
            alloc,
            n,
            TacletKind::Term,
            term_find(alloc, f),
            &Asked {
                assumes: a,
                given: &[],
                conds: c,
            },
            one_goal(alloc, term_find(alloc, r)),
        ),
    }
}

/// The rows that the data says, in order.
///
/// # Errors
///
/// `NoMemory` if memory runs out.
pub fn rows_of(alloc: Global, table: &[RowData]) -> Result<Vec<Taclet>, NoMemory>
    ensures { GivesRows result (map row_data table.now) }
{
    let mut made = no_items(alloc, table.len());
    for r in table {
        made = with_row(made, row_of(alloc, r));
    }
    made
}

/// The rows of both.
///
/// # Errors
///
/// `NoMemory` if memory runs out.
pub fn joined_rows(
    a: Result<Vec<Taclet>, NoMemory>,
    b: Result<Vec<Taclet>, NoMemory>,
) -> Result<Vec<Taclet>, NoMemory>
    ensures { (x y : List plain.Taclet) → GivesRows a x → GivesRows b y → GivesRows result (x ++ y) }
{
    let (a, b) = both(a, b)?;
    appended(a, b)
}
