//! What is in scope in a body.

ghost use Rattle.std.specs.Prelude.{◌≡◌, None, OnOk};
ghost use Rattle.jd_bodies.specs.Scopes.{Scope, local_named};
ghost use Rattle.jd_bodies.specs.Statements.{inside_label, inside_loop, label_named, with_local};
ghost use Rattle.jd_naming.specs.Marks.{left_at, marked};

use jd_base::NoMemory;
use jd_bodies::ValueType;
use std::alloc::Global;

/// How much was in scope at a place.
#[derive(Clone, Copy)]
pub struct Mark {
    /// How many locals.
    pub locals: usize,
    /// How many labels.
    pub labels: usize,
    /// Whether a loop stood around.
    pub in_loop: bool,
}

/// The parameters and locals in scope, and the labels and loops around.
pub trait InScope {
    ghost scope: { Self → Scope };

    /// The type of the last local of the name.
    fn type_of(&self, name: &[u8]) -> Option<ValueType>
        ensures { result ≡ local_named (scope self.now).locals name.now };

    /// Whether the last label of the name is a loop's; none where there is no such label.
    fn label_named(&self, name: &[u8]) -> Option<bool>
        ensures { result ≡ label_named (scope self.now).labels name.now };

    /// Whether a loop stands around.
    fn in_loop(&self) -> bool
        ensures { result ≡ (scope self.now).in_loop };

    /// Brings one more local into scope, of a name that none in scope has.
    ///
    /// # Errors
    ///
    /// `NoMemory`.
    fn enter(&mut self, alloc: Global, name: &[u8], value: ValueType) -> Result<(), NoMemory>
        requires new { local_named (scope self.old).locals name.now ≡ None }
        ensures { OnOk result (scope self.new ≡ with_local name.now value (scope self.old)) };

    /// Puts one more label around.
    ///
    /// # Errors
    ///
    /// `NoMemory`.
    fn enter_label(&mut self, alloc: Global, name: &[u8], is_loop: bool) -> Result<(), NoMemory>
        ensures { OnOk result (scope self.new ≡ inside_label name.now is_loop (scope self.old)) };

    /// Puts a loop around.
    fn enter_loop(&mut self)
        ensures { scope self.new ≡ inside_loop (scope self.old) };

    /// How much is in scope.
    fn mark(&self) -> Mark
        ensures { result ≡ marked (scope self.now) };

    /// Leaves what was in scope at the mark.
    fn leave(&mut self, mark: Mark)
        ensures { scope self.new ≡ left_at mark (scope self.old) };
}
