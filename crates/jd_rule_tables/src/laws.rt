ghost use Rattle.jd_rule_tables.specs.Tables.{AreRules, logic_and_integer_rows};

use jd_tac_int::{integer_rows_are_found, integer_rows_mean};
use jd_tac_logic::{logic_rows_are_found, logic_rows_mean};

/// A law, without code: the rows of logic and of integers can be used as rules.
pub fn rows_are_rules()
    ensures { AreRules logic_and_integer_rows }
{
    logic_rows_mean();
    integer_rows_mean();
    logic_rows_are_found();
    integer_rows_are_found();
}
