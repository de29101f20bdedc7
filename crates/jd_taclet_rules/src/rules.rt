//! Rows of a table as rules.

ghost use Rattle.std.specs.Prelude.{◌≡◌, ◌↔◌, All, IsTrue, map};
ghost use Rattle.jd_model.specs.Sequents.{sequent_view};
ghost use Rattle.jd_schema_trees.specs.TacletViews.{taclet};
ghost use Rattle.jd_sequent.specs.Limits.{IsWithinLimits};
ghost use Rattle.jd_sequent.specs.Obligations.{names_of, task_view};
ghost use Rattle.jd_sequent.specs.Steps.{step_view};
ghost use Rattle.jd_spelled_trees.specs.Places.{IsSpelledSequent};
ghost use Rattle.jd_taclet_scripts.specs.Causes.{TacletCause};
ghost use Rattle.jd_taclet_scripts.specs.Steps.{IsTacletStep};
ghost use Rattle.jd_taclet_rules.specs.Premises.{AreWithin, IsAnswerOfRow};
ghost use Rattle.jd_table_steps.specs.Tables.{rule_rows};
ghost use Rattle.jd_table_steps.specs.Usable.{IsUsable};
ghost use Rattle.jd_table_steps.proofs.Rows.{each_with, rows_are_rules};
ghost use Rattle.jd_table_steps.proofs.Tables.{few, has_no_cause, keeps, one_way, sound};

use crate::stages::goals_of_step;
use crate::table::row_named;
use jd_base::NoMemory;
use jd_model::Sequent;
use jd_schema_trees::Taclet;
use jd_sequent::{Bad, Rule, Step, Task, is_within_limits};
use jd_taclet_premises::{GoalParts, premises};
use std::alloc::Global;

/// The rows of logic and of integers as rules.
#[derive(Drop)]
pub struct TacletRule {
    /// The rows.
    pub rows: Vec<Taclet>,
}

// Whether all premises are within the limits.
fn are_within(premises: &[Sequent]) -> bool
    ensures { IsTrue result ↔ All IsWithinLimits (map sequent_view premises.now) }
{
    for premise in premises {
        if !is_within_limits(premise) {
            return false;
        }
    }
    true
}

// The premises, where all are within the limits.
fn within(made: Result<Vec<Sequent>, NoMemory>) -> Result<Vec<Sequent>, Bad>
    ensures { AreWithin made result }
{
    match made {
        Err(_) => Err(Bad::NoMemory),
        Ok(premises) => {
            if are_within(&premises) {
                Ok(premises)
            } else {
                Err(Bad::TooLarge)
            }
        }
    }
}

/// The premises of a step by the row.
///
/// # Errors
///
/// The least cause that holds; `NoMemory` if memory runs out.
pub fn apply_row(
    alloc: Global,
    task: &Task<'_>,
    row: &Taclet,
    sequent: Sequent,
    step: &Step,
) -> Result<Vec<Sequent>, Bad>
    requires { IsUsable (taclet row.now) (task_view task.now) (sequent_view sequent) (step_view step.now) }
    ensures { IsAnswerOfRow (taclet row.now) (task_view task.now) (sequent_view sequent) (step_view step.now) result }
{
    match goals_of_step(alloc, task, row, &sequent, step) {
        Err(bad) => Err(bad),
        Ok(goals) => within(premises(alloc, row.kind, sequent, step.place.as_ref(), goals)),
    }
}

impl TacletRule {
    /// The rows as rules.
    pub fn new(table: Vec<Taclet>) -> TacletRule
        requires { map taclet table.items ≡ rule_rows }
        ensures { map taclet result.rows.items ≡ rule_rows }
    {
        TacletRule { rows: table }
    }
}

impl Rule for TacletRule {
    ghost accepts = { λ r t s. (map taclet r.rows.items ≡ rule_rows) × IsSpelledSequent (names_of t) s };

    ghost instance = { λ r t s p ps. IsTacletStep rule_rows t s p ps };

    ghost cause = { λ r t s p n. TacletCause rule_rows t s p n };

    fn apply(
        &self,
        alloc: Global,
        task: &Task<'_>,
        sequent: &Sequent,
        step: &Step,
    ) -> Result<Vec<Sequent>, Bad> {
        let Some(row) = row_named(&self.rows, &step.rule) else {
            return Err(Bad::UnknownRule)
        };
        match sequent.copy(alloc) {
            Err(_) => Err(Bad::NoMemory),
            Ok(sequent) => apply_row(alloc, task, row, sequent, step),
        }
    }

    ghost sound = { λ r t s p ps a i. sound rule_rows rows_are_rules t s p ps a.1 i };

    ghost keeps = { λ r t s p ps a l. each_with (λ x. IsSpelledSequent (names_of t) x) ps (map taclet r.rows.items ≡ rule_rows) a.0 (keeps rule_rows rows_are_rules t s p ps a.1 l) };

    ghost has_no_cause = { λ r t s p ps n l c. has_no_cause rule_rows rows_are_rules t s p ps n l c };

    ghost one_way = { λ r t s p ps qs a b. one_way rule_rows rows_are_rules t s p ps qs a b };

    ghost few = { λ r t s p ps a. few rule_rows rows_are_rules t s p ps a };
}
