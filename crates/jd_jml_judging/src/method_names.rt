//! The parameters and locals of a method in scope.

ghost use Rattle.std.specs.Prelude.{◌≡◌, ◌∷◌, ◌-◌, [], OnOk, drop, length, option_map};
ghost use Rattle.jd_jml_judging.specs.Visible.{known_of, local_by, locals_of};
ghost use Rattle.jd_specifications.specs.Scopes.{local_named};

use jd_base::{NoMemory, copy_bytes};
use jd_bodies::ValueType;
use std::alloc::Global;

/// What a name stands for.
#[derive(Clone, Copy, PartialEq, Eq)]
pub struct Known {
    /// Whether it is a local of the method, which `\old` does not see.
    pub is_local: bool,
    /// The type of its value.
    pub value: ValueType,
}

/// A name in scope.
#[derive(Drop)]
pub(crate) struct Entry {
    pub(crate) name: Vec<u8>,
    pub(crate) known: Known,
}

/// The parameters and locals of a method in scope (JLS 6.3). Looking up takes as many steps as there are.
#[derive(Drop)]
pub struct MethodNames {
    // The oldest first.
    pub(crate) entries: Vec<Entry>,
}

impl MethodNames {
    /// Nothing.
    pub fn new(alloc: Global) -> MethodNames
        ensures { locals_of result ≡ [] }
    {
        MethodNames {
            entries: Vec::new(alloc),
        }
    }

    /// What the newest of the name is.
    pub fn named(&self, name: &[u8]) -> Option<Known>
        ensures { result ≡ option_map known_of (local_named (locals_of self.now) name.now) }
    {
        let mut left = self.entries.len();
        while left > 0 {
            left -= 1;
            let entry = &self.entries[left];
            if entry.name.as_slice() == name {
                return Some(entry.known);
            }
        }
        None
    }

    /// Brings one more name into scope, which hides others of the name.
    ///
    /// # Errors
    ///
    /// `NoMemory`.
    pub fn enter(&mut self, alloc: Global, name: &[u8], known: Known) -> Result<(), NoMemory>
        ensures { OnOk result (locals_of self.new ≡ local_by name.now known ∷ locals_of self.old) }
    {
        let name = copy_bytes(alloc, name)?;
        self.entries.push(Entry { name, known })?;
        Ok(())
    }

    /// Leaves all.
    pub fn clear(&mut self)
        ensures { locals_of self.new ≡ [] }
    {
        self.entries.truncate(0);
    }

    /// How many are in scope.
    pub fn mark(&self) -> usize
        ensures { result ≡ length (locals_of self.now) }
    {
        self.entries.len()
    }

    /// Leaves those that were in scope at the mark.
    pub fn leave(&mut self, mark: usize)
        ensures { locals_of self.new ≡ drop (length (locals_of self.old) - mark) (locals_of self.old) }
    {
        self.entries.truncate(mark);
    }
}
