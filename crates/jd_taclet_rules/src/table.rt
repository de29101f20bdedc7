//! The row of a name.

ghost use Rattle.std.specs.Prelude.{◌≡◌, map, option_map};
ghost use Rattle.jd_schema_trees.specs.TacletViews.{taclet};
ghost use Rattle.jd_taclet_scripts.specs.Steps.{row_named};

use jd_schema_trees::Taclet;
use jd_twords::is_word;

/// The first row of this name.
pub fn row_named<'t>(rows: &'t [Taclet], name: &[u8]) -> Option<&'t Taclet>
    ensures { option_map (λ r. taclet r.now) result ≡ row_named (map taclet rows.now) name.now }
{
    for row in rows {
        if is_word(&row.name, name) {
            return Some(row);
        }
    }
    None
}
