//! Lists of what stands behind an operand. In the code the last suffix comes first.

ghost use Rattle.std.specs.Prelude.{◌≡◌, ◌++◌, ◌∷◌, [], List};
ghost use Rattle.jd_java_values.specs.Values.{PlainSuffix};
ghost use Rattle.jd_java_values.specs.Views.{Gives, backwards, suffix_view};

use jd_base::{NoMemory, both};
use jd_java_values::{Suffix, appended, with};
use std::alloc::Global;

/// What stands behind an operand, where memory sufficed for it.
pub type Behind = Result<Vec<Suffix>, NoMemory>;

/// Suffixes, and others behind them.
#[tactic(auto, using(jd_lists::proofs::Backwards::others_first))]
pub fn followed(suffixes: Vec<Suffix>, behind: Behind) -> Behind
    ensures { (x : List PlainSuffix) → Gives (backwards suffix_view) behind x → Gives (backwards suffix_view) result (backwards suffix_view suffixes ++ x) }
{
    let (suffixes, behind) = both(Ok(suffixes), behind)?;
    appended(behind, suffixes)
}

/// A suffix, and others behind it.
#[tactic(auto, using(jd_lists::proofs::Backwards::one_more))]
pub fn begins(suffix: Suffix, behind: Behind) -> Behind
    ensures { (x : List PlainSuffix) → Gives (backwards suffix_view) behind x → Gives (backwards suffix_view) result (suffix_view suffix ∷ x) }
{
    let (suffix, behind) = both(Ok(suffix), behind)?;
    with(behind, suffix)
}

/// A suffix alone.
#[tactic(auto, using(jd_lists::proofs::Backwards::one_more))]
pub fn alone(alloc: Global, suffix: Suffix) -> Behind
    ensures { Gives (backwards suffix_view) result (suffix_view suffix ∷ []) }
{
    with(Vec::new(alloc), suffix)
}
