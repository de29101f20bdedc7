//! The rules as one set.

ghost use Rattle.std.specs.Prelude.{◌≡◌, IfOk, map};
ghost use Rattle.jd_row_data.specs.Tables.{GivesRows};
ghost use Rattle.jd_schema_trees.specs.TacletViews.{taclet};
ghost use Rattle.jd_table_steps.specs.Tables.{rule_rows};
ghost use Rattle.jd_rules.specs.Steps.{IsRuleStep, IsTaken, RuleCause};
ghost use Rattle.jd_rules.specs.Laws.{each_with, few, has_no_cause, keeps, one_way, sound};

use jd_base::NoMemory;
use jd_first_rules::FirstRules;
use jd_model::Sequent;
use jd_row_data::joined_rows;
use jd_schema_trees::Taclet;
use jd_sequent::{Bad, RuleSet, Step, Task};
use jd_tac_int as integers;
use jd_tac_logic as logic;
use jd_taclet_rules::{apply_row, row_named};
use std::alloc::Global;

// The rows of both tables.
fn all_rows(alloc: Global) -> Result<Vec<Taclet>, NoMemory>
    ensures { GivesRows result rule_rows }
{
    joined_rows(logic::table(alloc), integers::table(alloc))
}

/// The rows of logic and of integers, and the first rules of code and updates. They take the sequents that the grammar spells.
#[derive(Drop)]
pub struct Base {
    /// The rows.
    pub rows: Vec<Taclet>,
}

impl Base {
    /// All of them.
    ///
    /// # Errors
    ///
    /// `NoMemory` if memory runs out.
    pub fn new(alloc: Global) -> Result<Base, NoMemory>
        ensures { IfOk result (λ r. map taclet r.rows.items ≡ rule_rows) }
    {
        let rows = all_rows(alloc)?;
        Ok(Base { rows })
    }
}

impl RuleSet for Base {
    ghost accepts = { λ r t s. (map taclet r.rows.items ≡ rule_rows) × IsTaken t s };

    ghost instance = { λ r t s p ps. IsRuleStep t s p ps };

    ghost cause = { λ r t s p n. RuleCause t s p n };

    fn apply(
        &self,
        alloc: Global,
        task: &Task<'_>,
        sequent: &Sequent,
        step: &Step,
    ) -> Result<Vec<Sequent>, Bad> {
        match sequent.copy(alloc) {
            Err(_) => Err(Bad::NoMemory),
            Ok(sequent) => self.apply_to(alloc, task, sequent, step),
        }
    }

    fn apply_to(
        &self,
        alloc: Global,
        task: &Task<'_>,
        sequent: Sequent,
        step: &Step,
    ) -> Result<Vec<Sequent>, Bad> {
        match row_named(&self.rows, &step.rule) {
            Some(row) => apply_row(alloc, task, row, sequent, step),
            None => FirstRules.apply_to(alloc, task, sequent, step),
        }
    }

    ghost sound = { λ r t s p ps a i. sound t s p ps a.1 i };

    ghost keeps = { λ r t s p ps a l. each_with (λ x. IsTaken t x) ps (map taclet r.rows.items ≡ rule_rows) a.0 (keeps t s p ps a.1 l) };

    ghost has_no_cause = { λ r t s p ps n l c. has_no_cause t s p ps n l c };

    ghost one_way = { λ r t s p ps qs a b. one_way t s p ps qs a b };

    ghost few = { λ r t s p ps a. few t s p ps a };
}
