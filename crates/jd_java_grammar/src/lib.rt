//! The grammar of Java's files as a table (JLS SE 8, chapter 19).
#![tactic(auto)]

ghost use Rattle.std.specs.Prelude.{◌≡◌, IfOk, IfErr};
ghost use Rattle.jd_grammar.specs.Grammars.{Spells};
ghost use Rattle.jd_grammar.specs.Readings.{IsRefusal};
ghost use Rattle.jd_grammar.specs.Tables.{plain};
ghost use Rattle.jd_java_grammar.specs.Java.{java};
ghost use Rattle.jd_java_grammar.specs.Productions.{java_productions};
ghost use Rattle.jd_java_grammar.specs.declared.names.TheConstants.{COMPILATION_UNIT};

pub mod kinds;
mod laws;
pub mod names;
mod rows;
mod rules;
mod run_symbols;
mod runs;

use jd_grammar::{Refusal, Table, parse};
pub use laws::one_derivation;
use std::alloc::Global;

// The table.
fn java_table() -> Table<'static>
    ensures { plain result ≡ java }
{
    Table {
        rules: &rules::RULES,
        symbols: &rules::SYMBOLS,
        rows: &rows::ROWS,
        width: rows::WIDTH,
        starts: &names::STARTS,
        weights: &rows::WEIGHTS,
        solid: &rows::SOLID,
        runs: &runs::RUNS,
        run_rows: &rows::RUN_ROWS,
        run_order: &runs::RUN_ORDER,
        run_symbols: &run_symbols::RUN_SYMBOLS,
    }
}

/// The preorder of the file that tokens of these kinds are: 0 for a token, and one more than the production's number for a name.
///
/// # Errors
///
/// `Syntax` with the number of the first token with which no file goes on, or that of the end; `NoMemory`.
pub fn parse_java(alloc: Global, kinds: &[u8]) -> Result<Vec<u16>, Refusal>
    ensures ok { IfOk result (λ order. Spells java_productions COMPILATION_UNIT kinds.now order.items) }
    ensures err { IfErr result (IsRefusal java_productions COMPILATION_UNIT kinds.now) }
{
    parse(alloc, &java_table(), names::COMPILATION_UNIT, kinds)
}
