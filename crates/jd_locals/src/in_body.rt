ghost use Rattle.std.specs.Prelude.{◌≡◌};
ghost use Rattle.jd_bodies.specs.Scopes.{empty_scope};
ghost use Rattle.jd_locals.specs.Scoped.{scope_of};

use crate::listed::{ListsLocals, LocalInScope};
use indexmap::IndexMap;
use jd_base::{NoMemory, copy_bytes};
use jd_bodies::ValueType;
use jd_naming::{InScope, Mark};
use std::alloc::Global;

/// A label around a place.
#[derive(Drop)]
pub(crate) struct Label {
    // Its name.
    pub(crate) name: Vec<u8>,
    // Whether it is a loop's.
    pub(crate) is_loop: bool,
}

/// What is in scope in a body (JLS 6.3): looking up, entering and leaving a local take a step each, and a label as many as
/// there are labels around.
#[derive(Drop)]
pub struct InBody {
    // The parameters and locals, the oldest first. No two in scope have one name.
    pub(crate) locals: IndexMap<Vec<u8>, ValueType>,
    // The innermost last.
    pub(crate) labels: Vec<Label>,
    // Whether a loop stands around.
    pub(crate) in_loop: bool,
}

impl InBody {
    /// Nothing.
    pub fn new(alloc: Global) -> InBody
        ensures { scope_of result ≡ empty_scope }
    {
        InBody {
            locals: IndexMap::new(alloc),
            labels: Vec::new(alloc),
            in_loop: false,
        }
    }
}

impl InScope for InBody {
    ghost scope = { scope_of };

    fn type_of(&self, name: &[u8]) -> Option<ValueType> {
        // That no two have one name is known with their number.
        let _count = self.locals.len();
        match self.locals.get(name) {
            Some(value) => Some(*value),
            None => None,
        }
    }

    fn label_named(&self, name: &[u8]) -> Option<bool> {
        let mut found = None;
        for label in &self.labels {
            if label.name.as_slice() == name {
                found = Some(label.is_loop);
            }
        }
        found
    }

    fn in_loop(&self) -> bool {
        self.in_loop
    }

    fn enter(&mut self, alloc: Global, name: &[u8], value: ValueType) -> Result<(), NoMemory> {
        let _count = self.locals.len();
        self.locals.insert(copy_bytes(alloc, name)?, value)?;
        Ok(())
    }

    fn enter_label(&mut self, alloc: Global, name: &[u8], is_loop: bool) -> Result<(), NoMemory> {
        let name = copy_bytes(alloc, name)?;
        self.labels.push(Label { name, is_loop })?;
        Ok(())
    }

    fn enter_loop(&mut self) {
        self.in_loop = true;
    }

    fn mark(&self) -> Mark {
        Mark {
            locals: self.locals.len(),
            labels: self.labels.len(),
            in_loop: self.in_loop,
        }
    }

    fn leave(&mut self, mark: Mark) {
        self.locals.truncate(mark.locals);
        self.labels.truncate(mark.labels);
        self.in_loop = mark.in_loop;
    }
}

impl ListsLocals for InBody {
    fn local_at(&self, index: usize) -> Option<LocalInScope<'_>> {
        match self.locals.get_index(index) {
            None => None,
            Some((name, value)) => Some(LocalInScope {
                name,
                value: *value,
            }),
        }
    }
}
