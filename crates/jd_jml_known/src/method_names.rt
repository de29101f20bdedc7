//! The parameters and locals of a method in scope.

ghost use Rattle.std.specs.Prelude.{◌≡◌, ◌∷◌, [], ℕ, OnOk, option_map};
ghost use Rattle.jd_jml_known.specs.Scopes.{entry_by, entry_view, known_of};
ghost use Rattle.jd_specifications.specs.Resolution as plain;

use jd_base::{NoMemory, copy_bytes};
use jd_bodies::ValueType;
use jd_syntax::VarId;
use std::alloc::Global;

/// What a parameter or local stands for.
#[derive(Drop)]
pub enum Known {
    /// The argument at this position, from 0.
    Argument(u32),
    /// The variable.
    Variable(VarId),
}

/// A name in scope.
#[derive(Drop)]
pub(crate) struct Entry {
    pub(crate) name: Vec<u8>,
    pub(crate) known: Known,
    pub(crate) value: ValueType,
}

/// The parameters and locals of a method in scope (JLS 6.3), with what they stand for. Looking up takes as many steps as there are.
#[derive(Drop)]
pub struct KnownNames {
    // The oldest first.
    pub(crate) entries: Vec<Entry>,
}

impl KnownNames {
    /// Nothing.
    pub fn new(alloc: Global) -> KnownNames
        ensures { known_of result ≡ [] }
    {
        KnownNames {
            entries: Vec::new(alloc),
        }
    }

    /// Brings one more name into scope, which hides others of the name.
    ///
    /// # Errors
    ///
    /// `NoMemory`.
    pub fn enter(
        &mut self,
        alloc: Global,
        name: &[u8],
        known: Known,
        value: ValueType,
    ) -> Result<(), NoMemory>
        ensures { OnOk result (known_of self.new ≡ entry_by name.now known value ∷ known_of self.old) }
    {
        let name = copy_bytes(alloc, name)?;
        self.entries.push(Entry { name, known, value })?;
        Ok(())
    }

    // The newest of the name.
    pub(crate) fn named(&self, name: &[u8]) -> Option<&Entry>
        ensures typed { option_map (λ e. e.now.value) result ≡ plain.typed (known_of self.now) name.now }
        ensures looked_up { (n : ℕ) → option_map (λ e. plain.found n (entry_view e.now)) result ≡ plain.looked_up n (known_of self.now) name.now }
    {
        let mut left = self.entries.len();
        while left > 0 {
            left -= 1;
            let entry = &self.entries[left];
            if entry.name.as_slice() == name {
                return Some(entry);
            }
        }
        None
    }
}
