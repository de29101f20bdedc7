//! The grammar of JML as a table (JML Reference Manual, appendix A), with a name for each place where JML stands.
#![tactic(auto)]

ghost use Rattle.std.specs.Prelude.{◌≡◌, IfOk, IfErr, true};
ghost use Rattle.jd_grammar.specs.Grammars.{Spells};
ghost use Rattle.jd_grammar.specs.Readings.{IsRefusal};
ghost use Rattle.jd_grammar.specs.Tables.{plain};
ghost use Rattle.jd_jml_grammar.specs.Jml.{is_place, jml};
ghost use Rattle.jd_jml_grammar.specs.Productions.{jml_productions};

pub mod kinds;
mod laws;
pub mod names;
mod rows;
mod rules;
mod run_symbols;
mod runs;

use jd_grammar::{Refusal, Table, parse};
pub use laws::one_derivation;
use std::alloc::Global;

// The table.
fn jml_table() -> Table<'static>
    ensures { plain result ≡ jml }
{
    Table {
        rules: &rules::RULES,
        symbols: &rules::SYMBOLS,
        rows: &rows::ROWS,
        width: rows::WIDTH,
        starts: &names::STARTS,
        weights: &rows::WEIGHTS,
        solid: &rows::SOLID,
        runs: &runs::RUNS,
        run_rows: &rows::RUN_ROWS,
        run_order: &runs::RUN_ORDER,
        run_symbols: &run_symbols::RUN_SYMBOLS,
    }
}

/// The preorder of the JML that tokens of these kinds are at a place, whose name is `place`: 0 for a token, and one more than the
/// production's number for a name.
///
/// # Errors
///
/// `Syntax` with the number of the first token with which no JML of that place goes on, or that of the end; `NoMemory`.
pub fn parse_jml(alloc: Global, place: u8, kinds: &[u8]) -> Result<Vec<u16>, Refusal>
    requires { is_place place ≡ true }
    ensures ok { IfOk result (λ order. Spells jml_productions place kinds.now order.items) }
    ensures err { IfErr result (IsRefusal jml_productions place kinds.now) }
{
    parse(alloc, &jml_table(), place, kinds)
}
