ghost use Rattle.std.specs.Prelude.{◌≤◌, length};

use indexmap::IndexSet;

/// Texts by their numbers, and the number of each member's text. Equal texts have one number;
/// numbers are given from 0 in the order in which the texts occur first.
#[derive(Drop)]
pub struct Numbers {
    // In the order of the numbers.
    pub(crate) texts: IndexSet<Vec<u8>>,
    /// The number of each member, in their order.
    pub numbers: Vec<u32>,
    ghost few: { length texts.keys ≤ 4294967295 },
}
