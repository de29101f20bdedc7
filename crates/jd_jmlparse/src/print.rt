ghost use Rattle.std.specs.Prelude.{◌≡◌, map, IfOk};
ghost use Rattle.jd_syntax.specs.SpecTrees.{clause_view};
ghost use Rattle.jd_jml_print.specs.Texts.{printed};

use jd_base::NoMemory;
use jd_jml_print::print_clauses;
use jd_syntax::SpecClause;
use std::alloc::Global;

/// The text of clauses: a comment that is JML (JML Reference Manual, 4.4), with a line for each clause and a blank before each token.
///
/// # Errors
///
/// `NoMemory` if memory runs out.
pub fn print_spec(alloc: Global, clauses: &[SpecClause]) -> Result<Vec<u8>, NoMemory>
    ensures { IfOk result (λ v. v.items ≡ printed (map clause_view clauses.now)) }
{
    print_clauses(alloc, clauses)
}
