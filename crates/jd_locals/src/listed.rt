ghost use Rattle.std.specs.Prelude.{◌≡◌, option_map, reverse, slice_get};
ghost use Rattle.jd_locals.specs.Listing.{local_view};

use jd_bodies::ValueType;
use jd_naming::InScope;

/// A parameter or local in scope.
#[derive(Clone, Copy)]
pub struct LocalInScope<'a> {
    /// Its name.
    pub name: &'a [u8],
    /// Its type.
    pub value: ValueType,
}

/// What is in scope, where the parameters and locals are told one by one.
pub trait ListsLocals: InScope {
    /// The one of this number, the oldest having 0.
    fn local_at(&self, index: usize) -> Option<LocalInScope<'_>>
        ensures { option_map local_view result ≡ slice_get (reverse (Self.scope self.now).locals) index };
}
