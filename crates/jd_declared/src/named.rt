ghost use Rattle.std.specs.Prelude.{◌≡◌, ℕ, List, None, OnOk};
ghost use Rattle.jd_declared.specs.Named.{or_named, value_at};

use indexmap::IndexMap;
use jd_base::{NoMemory, copy_bytes};
use std::alloc::Global;

/// Values by names: of each name the first that was given to it.
#[derive(Drop)]
pub(crate) struct Named<V> {
    pub(crate) values: IndexMap<Vec<u8>, V>,
}

impl<V: Copy> Named<V> {
    /// No names.
    pub(crate) fn new(alloc: Global) -> Named<V>
        ensures { (q : List ℕ) → value_at result q ≡ None }
    {
        Named {
            values: IndexMap::new(alloc),
        }
    }

    /// The value of the name.
    pub(crate) fn value(&self, name: &[u8]) -> Option<V>
        ensures { result ≡ value_at self.now name.now }
    {
        match self.values.get(name) {
            Some(value) => Some(*value),
            None => None,
        }
    }

    /// Gives the name a value, where it has none.
    pub(crate) fn add(&mut self, alloc: Global, name: &[u8], value: V) -> Result<(), NoMemory>
        ensures { OnOk result ((q : List ℕ) → value_at self.new q ≡ or_named (value_at self.old q) name.now value q) }
    {
        if self.values.get(name).is_some() {
            return Ok(());
        }
        self.values.insert(copy_bytes(alloc, name)?, value)?;
        Ok(())
    }
}
