//! What steps are taken in: a program of one class, and an obligation without variables.

ghost use Rattle.std.specs.Prelude.{◌≡◌, IfOk, map};
ghost use Rattle.jd_row_data.specs.Tables.{GivesRows};
ghost use Rattle.jd_schema_trees.specs.TacletViews.{taclet};
ghost use Rattle.jd_table_steps.specs.Tables.{rule_rows};
ghost use Rattle.jd_tparse.specs.Programs.{AreSomeTables};

use jd_base::{ClassId, ConstDecl, MethodId, NoMemory, Sort, copy_bytes};
use jd_classes::Classes;
use jd_files::classes_of;
use jd_lists::with;
use jd_model::{Contracts, Sequent};
use jd_row_data::joined_rows;
use jd_schema_trees::Taclet;
use jd_sequent::Obligation;
use jd_tac_int as integers;
use jd_tac_logic as logic;
use jd_taclet_rules::TacletRule;
use std::alloc::Global;

/// The tables of these classes; none where they are refused.
pub(crate) fn tables(alloc: Global, text: &[u8]) -> Result<Classes, NoMemory>
    ensures { IfOk result AreSomeTables }
{
    if text.len() > 1000 {
        return Err(NoMemory);
    }
    let files = vec![in alloc; text.to_vec(alloc)?]?;
    match classes_of(alloc, &files) {
        Ok(classes) => Ok(classes),
        Err(_) => Err(NoMemory),
    }
}

// The rows of both tables.
fn all_rows(alloc: Global) -> Result<Vec<Taclet>, NoMemory>
    ensures { GivesRows result rule_rows }
{
    joined_rows(logic::table(alloc), integers::table(alloc))
}

/// The rules.
pub(crate) fn rules(alloc: Global) -> Result<TacletRule, NoMemory>
    ensures { IfOk result (λ r. map taclet r.rows.items ≡ rule_rows) }
{
    match all_rows(alloc) {
        Ok(rows) => Ok(TacletRule::new(rows)),
        Err(NoMemory) => Err(NoMemory),
    }
}

/// No contracts.
pub(crate) fn contracts(alloc: Global) -> Contracts {
    Contracts {
        cases: Vec::new(alloc),
        invariants: Vec::new(alloc),
        bodies: Vec::new(alloc),
    }
}

// The one constant of the obligation.
fn constant(alloc: Global) -> Result<Vec<ConstDecl>, NoMemory> {
    let name = copy_bytes(alloc, b"#i_k")?;
    with(
        Vec::new(alloc),
        ConstDecl {
            name,
            sort: Sort::Int,
        },
    )
}

/// An obligation that names no variable, and the constant `#i_k`.
pub(crate) fn obligation(alloc: Global) -> Result<Obligation, NoMemory> {
    let consts = constant(alloc)?;
    Ok(Obligation {
        name: Vec::new(alloc),
        class: ClassId(10),
        method: MethodId(0),
        case: 1,
        vars: Vec::new(alloc),
        loops: Vec::new(alloc),
        consts,
        diamond: true,
        sequent: Sequent {
            left: Vec::new(alloc),
            right: Vec::new(alloc),
        },
    })
}
