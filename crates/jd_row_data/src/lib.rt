//! Rows of rules as data that a table holds, and the rows that they are: one reader for all.
#![tactic(auto)]

mod conditions;
mod data;
mod formulas;
mod growing;
mod lists;
mod rows;
mod terms;

pub use data::{
    CalculationData, Comparison, ConditionData, Connective, FormData, FormulaData, GivenData,
    GoalData, Quantifier, RowData, SortData, TermData,
};
pub use rows::{joined_rows, row_of, rows_of};
