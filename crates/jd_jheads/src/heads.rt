ghost use Rattle.std.specs.Prelude.{◌≤◌, length};

use indexmap::IndexSet;

/// The names of a program's classes and what each extends, by the classes' numbers.
#[derive(Drop)]
pub struct Heads {
    // In the order of the numbers.
    pub(crate) names: IndexSet<Vec<u8>>,
    /// The number of the class that each class extends; none for `Object`, which has number 0.
    pub parents: Vec<Option<u32>>,
    ghost few: { length names.keys ≤ 4294967295 },
}
